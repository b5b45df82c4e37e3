//! Who may send a body.

use host_types::View;

/// Who may send a body (Castro and Liskov 1999, section 4).
#[derive(Clone, Copy, Debug, PartialEq, Eq)]
pub enum Sender {
    /// Any client.
    Client,
    /// Any replica.
    Replica,
    /// The primary of this view.
    Primary(View),
    /// A replica that is not the primary of this view.
    Backup(View),
}
