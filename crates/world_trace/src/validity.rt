//! Whether a message changes views as a correct replica's does.

ghost use Rattle.std.specs.Prelude.{◌≡◌};
ghost use Rattle.pbft_model.specs.Setup.{setup_of};
ghost use Rattle.world_trace.specs.Blaming.{is_invalid};

use host_types::Config;
use pbft_codec::Body;
use seal::Checked;
use view_change::{valid, valid_new_view};

/// Whether it is a ViewChange or a NewView that isn't valid. It takes no memory.
pub(crate) fn is_invalid(message: &Checked) -> bool
    ensures { result ≡ is_invalid (setup_of message.now.config) message.now.message.body }
{
    let config: &Config = message.config();
    match message.body() {
        Body::ViewChange(_) => valid(config, message).is_err(),
        Body::NewView(_) => valid_new_view(config, message).is_err(),
        _ => false,
    }
}
