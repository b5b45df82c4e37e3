//! The keys of a script's steps.

ghost use Rattle.std.specs.Int.{to_be_bytes, w32};
ghost use Rattle.std.specs.Prelude.{◌≡◌, ◌∷◌, ◌++◌, ℕ, IfOk, List, Ok, Option, Result, codes, map};
ghost use Rattle.host_types.specs.Configuration.{replicas_for};
ghost use Rattle.toml.specs.View.{table_view, view};
ghost use Rattle.script_values.specs.declared.fault.TableFault.{TableFault};
ghost use Rattle.script_text.specs.declared.script.Damage.{Damage as DamageSaid};
ghost use Rattle.script_text.specs.declared.script.Damage.TheVariants as damages;
ghost use Rattle.script_text.specs.declared.script.DeliveryOrder.{DeliveryOrder as OrderSaid};
ghost use Rattle.script_text.specs.declared.script.Step.{Step as StepSaid};
ghost use Rattle.script_values.specs.Faults.{IsUnlessMemory};
ghost use Rattle.script_text.specs.Naming.{named};
ghost use Rattle.script_text.specs.Steps.{Selection as SelectionSaid, arguments_of, asm_in, bare, call_in, chosen_deliver_in, damage_at, deliver_from, deliver_in, deliver_with, drawn_deliver_in, drop_in, expect_in, file_in, filter_in, filter_of, install_in, installing, mangle_from, mangle_in, mangle_with, name_in, numbered_call_in, order_in, order_with, plain_deliver_in, profile_in, queue_in, repeat_in, seeded_deliver_in, selection_in, state_in, step_named, timeout_in, upgrade_in};
ghost use Rattle.script_text.specs.Dialects.{seeded_step, step, step_named_for, thread_step};

use crate::dialect::Dialect;
use crate::files::{FileCode, NamedFile};
use crate::forgery_keys::read_forgery;
use crate::head::Head;
use crate::naming::NewName;
use crate::order_keys::{read_chosen, read_drawn};
use crate::raw_keys::read_raw;
use crate::script::{Damage, DeliveryOrder, Filter, NamedStep, Order, Printout, QueueEdit, Step};
use host_types::operation::{CALL, INSTALL, INSTALL2};
use host_types::{Bytes, ReplicaId};
use pbft_codec::Sequence;
use script_values::{
    AssemblerText, Client, ClientName, HexBytes, InstallProfile, Kind, KindName, Lines, ListOf,
    MAX_INTEGER, MessageName, Node, NodeName, Numbers, Operation, ProfileNumber, ReplicaIndex,
    ScriptBytes, TableFault, UpTo, Word, is_among, needed, optional, pair, table_of, unknown_where,
    value_at, with_only, wrong_where,
};
use std::alloc::{AllocError, Global};
use toml::{Table, Value};

const INSTALL_KEYS: [&str; 6] = ["do", "client", "install", "profile", "to", "as"];

const ASM_KEYS: [&str; 6] = ["do", "client", "asm", "profile", "to", "as"];

const FILE_KEYS: [&str; 6] = ["do", "client", "file", "profile", "to", "as"];

const CALL_KEYS: [&str; 6] = ["do", "client", "call", "args", "to", "as"];

const NUMBERED_CALL_KEYS: [&str; 6] = ["do", "client", "call", "numbers", "to", "as"];

const FILTER_KEYS: [&str; 4] = ["do", "from", "to", "kinds"];

const NAMED_FILTER_KEYS: [&str; 5] = ["do", "from", "to", "kinds", "as"];

const DRAWN_KEYS: [&str; 8] = [
    "do", "from", "to", "kinds", "order", "lose", "again", "late",
];

const CHOSEN_KEYS: [&str; 5] = ["do", "from", "to", "kinds", "choose"];

const TIMEOUT_KEYS: [&str; 2] = ["do", "at"];

const CUT_KEYS: [&str; 6] = ["do", "from", "to", "kinds", "cut", "as"];

const FLIP_KEYS: [&str; 6] = ["do", "from", "to", "kinds", "flip", "as"];

const BARE_KEYS: [&str; 1] = ["do"];

const STATE_KEYS: [&str; 2] = ["do", "at"];

const UPGRADE_KEYS: [&str; 2] = ["do", "bytes"];

const EXPECT_KEYS: [&str; 2] = ["do", "lines"];

/// The keys of each step, as `help world` lists them.
pub const STEP_FORMS: &str =
    r#"  do = "request"   client; install = hex, or asm = text, or file = a name, each with profile = 1 or 2, or
                   call = a procedure with args = hex, or numbers = a list; to
  do = "deliver"   from, to, kinds; order = a seed, with lose, again and late, each of 1,000 deliveries, or
                   choose = a list of numbers
  do = "drop"      from, to, kinds
  do = "repeat"    from, to, kinds
  do = "queue"     from, to, kinds
  do = "mangle"    from, to, kinds; cut = bytes, or flip = places
  do = "timeout"   at = a list of replicas
  do = "forge"     from = a faulty replica, to, kind; of pre-prepare, prepare, commit view, number, and
                   client and time, or null = true; of checkpoint number, digest; of view-change view
  do = "raw"       to; bytes = hex, or message = a name with cut = bytes, or flip = places
  do = "show"
  do = "digest"
  do = "state"     at = a replica
  do = "upgrade"   bytes = hex
  do = "expect"    lines = a list of lines, or a text
  do = "audit"
  do = "drained"
"#;

/// What the keys of steps take, in lines as those of `HEAD_HINTS`: of one step, by its name, or of all others that have the
/// key, by `step`.
pub const STEP_HINTS: &str = r#"step | client | CLIENT | the id of a client of the script
step | install | "" | code as hex digits
step | asm | "exit" | an assembler text
step | file | FILE | the plain name of a file beside the script: NAME.hex, hex digits, or NAME.asm, an assembler text
step | call | 0 | a number from 0 to 4,294,967,295
step | args | "" | bytes as hex digits
step | numbers | [] | a list of numbers from 0 to 9,223,372,036,854,775,807
step | profile | 2 | 1 or 2
forge | from | FAULTY | the id of a faulty replica
forge | to | [] | a list of ids of replicas and clients
step | from | [] | a list of ids of replicas and clients
step | to | [] | a list of ids of replicas and clients
step | kinds | [] | a list of kinds of messages: request, pre-prepare, prepare, commit, reply, checkpoint, view-change, new-view, fetch, snapshot
step | order | 0 | a number from 0 to 9,223,372,036,854,775,807
step | choose | [] | a list of at most 65,536 numbers from 0 to 9,223,372,036,854,775,807
step | lose | 0 | a number from 0 to 1,000, at most 1,000 with again and late
step | again | 0 | a number from 0 to 1,000, at most 1,000 with lose and late
step | late | 0 | a number from 0 to 1,000, at most 1,000 with lose and again
step | cut | 0 | a number from 0 to 9,223,372,036,854,775,807
step | flip | 0 | a number from 0 to 9,223,372,036,854,775,807
state | at | 0 | the id of a replica
step | at | [] | a list of ids of replicas
step | kind | "prepare" | pre-prepare, prepare, commit, checkpoint or view-change
step | view | 0 | a number from 0 to 4,294,967,295
step | number | 0 | a number from 0 to 281,474,976,710,655
step | time | 0 | a number from 0 to 9,223,372,036,854,775,807
step | null | true | true
step | digest | "0000000000000000000000000000000000000000000000000000000000000000" | 64 hex digits, without blanks
step | bytes | "" | bytes as hex digits
step | message | NAME | a name that an earlier step gives with as
step | as | "a name that no step of a script gives" | a name that no earlier step gives
step | lines | [] | a list of lines, or a text
step | do | STEP | the name of a step; bpf_host help world lists them, and run has request and timeout alone
"#;

/// The steps that may name a message: those that queue messages of their own, and `queue`.
const NAMING_STEPS: [&str; 6] = ["request", "repeat", "queue", "forge", "mangle", "raw"];

/// Whose messages of the queue, for whom and of which kinds.
type Selection = (
    Option<Sequence<Node>>,
    (Option<Sequence<Node>>, Option<Sequence<Kind>>),
);

/// What the values of a step may name.
#[derive(Clone, Copy)]
pub(crate) struct Names<'a> {
    /// The files that were read for the script.
    pub files: &'a [NamedFile],
    /// How many replicas there are.
    pub count: u8,
    pub faulty: &'a [ReplicaId],
    pub clients: &'a [Client],
    /// The steps before this one.
    pub earlier: &'a [NamedStep],
}

/// A step under a head, behind these steps. Its first fault is reported.
pub(crate) fn read_step(
    alloc: Global,
    dialect: Dialect,
    files: &[NamedFile],
    head: &Head,
    earlier: &[NamedStep],
    value: &Value,
) -> Result<NamedStep, TableFault>
    ensures { IsUnlessMemory result (step dialect files.now (replicas_for head.now.f) head.now.faulty head.now.clients earlier.now (view value.now)) }
{
    let table = table_of(value)?;
    let names = Names {
        files,
        count: head.replica_count(),
        faulty: head.faulty(),
        clients: head.clients(),
        earlier,
    };
    match value_at(table, "do") {
        Some(value) => match value.as_str() {
            Some(name) => read_step_for(alloc, dialect, &names, table, name),
            None => Err(TableFault::WrongValue),
        },
        None => Err(TableFault::MissingKey),
    }
}

/// A step of this name in a dialect, and the name that it gives to a message.
fn read_step_for(
    alloc: Global,
    dialect: Dialect,
    names: &Names<'_>,
    table: &Table,
    name: &str,
) -> Result<NamedStep, TableFault>
    ensures { IsUnlessMemory result (step_named_for dialect name.now names.now.files.now names.now.count names.now.faulty.now names.now.clients.now names.now.earlier.now (table_view table.now)) }
{
    match dialect {
        Dialect::World => {
            let step = read_named_step(alloc, names, table, name);
            named(step, read_name(alloc, names, table, name))
        }
        Dialect::Seeded => {
            let step = read_seeded_step(alloc, names, table, name);
            named(step, read_name(alloc, names, table, name))
        }
        Dialect::Threads => {
            let step = read_thread_step(alloc, names, table, name);
            let is_named = value_at(table, "as").is_some();
            named(unknown_where(is_named, step), Ok(None))
        }
    }
}

/// The name that a step of this kind gives to a message.
fn read_name(
    alloc: Global,
    names: &Names<'_>,
    table: &Table,
    name: &str,
) -> Result<Option<MessageName>, TableFault>
    ensures { IsUnlessMemory result (name_in names.now.earlier.now name.now (table_view table.now)) }
{
    if !is_among(&NAMING_STEPS, name) {
        return Ok(None);
    }
    let form = NewName {
        earlier: names.earlier,
    };
    optional(alloc, table, "as", &form)
}

/// A step and the name that it gives, as one.
fn named(
    step: Result<Step, TableFault>,
    name: Result<Option<MessageName>, TableFault>,
) -> Result<NamedStep, TableFault>
    ensures { (s : Result StepSaid TableFault) (n : Result (Option (List ℕ)) TableFault) → IsUnlessMemory step s → IsUnlessMemory name n → IsUnlessMemory result (named s n) }
{
    match pair(step, name) {
        Ok((step, name)) => Ok(NamedStep { step, name }),
        Err(fault) => Err(fault),
    }
}

/// A step of this name for a world whose seed is given beside the script.
fn read_seeded_step(
    alloc: Global,
    names: &Names<'_>,
    table: &Table,
    name: &str,
) -> Result<Step, TableFault>
    ensures { IsUnlessMemory result (seeded_step name.now names.now.files.now names.now.count names.now.faulty.now names.now.clients.now names.now.earlier.now (table_view table.now)) }
{
    match name {
        "deliver" => read_seeded_deliver(alloc, names, table),
        _ => read_named_step(alloc, names, table, name),
    }
}

/// A step of this name for running threads.
fn read_thread_step(
    alloc: Global,
    names: &Names<'_>,
    table: &Table,
    name: &str,
) -> Result<Step, TableFault>
    ensures { IsUnlessMemory result (thread_step name.now names.now.files.now names.now.count names.now.faulty.now names.now.clients.now names.now.earlier.now (table_view table.now)) }
{
    match name {
        "request" => wrong_where(
            value_at(table, "to").is_some(),
            read_named_step(alloc, names, table, name),
        ),
        "timeout" => read_named_step(alloc, names, table, name),
        _ => Err(TableFault::WrongValue),
    }
}

/// A step of this name.
fn read_named_step(
    alloc: Global,
    names: &Names<'_>,
    table: &Table,
    name: &str,
) -> Result<Step, TableFault>
    ensures { IsUnlessMemory result (step_named name.now names.now.files.now names.now.count names.now.faulty.now names.now.clients.now names.now.earlier.now (table_view table.now)) }
{
    match name {
        "request" => Ok(Step::Request(read_request(alloc, names, table)?)),
        "deliver" => read_deliver(alloc, names, table),
        "drop" => read_drop(alloc, names, table),
        "repeat" => read_repeat(alloc, names, table),
        "queue" => read_queue(alloc, names, table),
        "timeout" => read_timeout(alloc, names, table),
        "forge" => Ok(Step::Forge(read_forgery(alloc, names, table)?)),
        "mangle" => read_mangle(alloc, names, table),
        "raw" => read_raw(alloc, names, table),
        "show" => read_bare(table, Printout::Show),
        "digest" => read_bare(table, Printout::Digest),
        "state" => read_state(alloc, names, table),
        "upgrade" => read_upgrade(alloc, table),
        "expect" => read_expect(alloc, table),
        "audit" => read_bare(table, Printout::Audit),
        "drained" => read_bare(table, Printout::Drained),
        _ => Err(TableFault::WrongValue),
    }
}

/// What is printed by a step of no keys but its name.
fn read_bare(table: &Table, printout: Printout) -> Result<Step, TableFault>
    ensures { IsUnlessMemory result (bare printout (table_view table.now)) }
{
    with_only(Ok(Step::Print(printout)), table, &BARE_KEYS)
}

/// A request, which installs code or calls a procedure.
fn read_request(alloc: Global, names: &Names<'_>, table: &Table) -> Result<Order, TableFault>
    ensures { IsUnlessMemory result (order_in names.now.files.now names.now.count names.now.clients.now (table_view table.now)) }
{
    if value_at(table, "install").is_some() {
        let install = read_install(alloc, table);
        read_order(alloc, names, table, install, &INSTALL_KEYS)
    } else if value_at(table, "asm").is_some() {
        let install = read_asm(alloc, table);
        read_order(alloc, names, table, install, &ASM_KEYS)
    } else if value_at(table, "file").is_some() {
        let install = read_file(alloc, names, table);
        read_order(alloc, names, table, install, &FILE_KEYS)
    } else if value_at(table, "numbers").is_some() {
        let call = read_numbered_call(alloc, table);
        read_order(alloc, names, table, call, &NUMBERED_CALL_KEYS)
    } else {
        let call = read_call(alloc, table);
        read_order(alloc, names, table, call, &CALL_KEYS)
    }
}

/// A request of this operation, in a table of these keys.
fn read_order(
    alloc: Global,
    names: &Names<'_>,
    table: &Table,
    op: Result<Operation, TableFault>,
    keys: &[&str],
) -> Result<Order, TableFault>
    ensures { (o : Result (List ℕ) TableFault) → IsUnlessMemory op o → IsUnlessMemory result (order_with o (map (λ k. k.now) keys.now) names.now.count names.now.clients.now (table_view table.now)) }
{
    let client = ClientName {
        clients: names.clients,
    };
    let nodes = ListOf(NodeName {
        count: names.count,
        clients: names.clients,
    });
    let named = pair(
        op,
        pair(
            needed(alloc, table, "client", &client),
            optional(alloc, table, "to", &nodes),
        ),
    );
    let (op, (client, to)) = with_only(named, table, keys)?;
    Ok(Order { client, op, to })
}

/// The operation that installs code.
fn read_install(alloc: Global, table: &Table) -> Result<Operation, TableFault>
    ensures { IsUnlessMemory result (install_in (table_view table.now)) }
{
    let (code, profile) = pair(
        needed(alloc, table, "install", &HexBytes),
        read_profile(alloc, table),
    )?;
    Ok(installation(alloc, &code, profile)?)
}

/// The operation that installs the code of an assembler text.
fn read_asm(alloc: Global, table: &Table) -> Result<Operation, TableFault>
    ensures { IsUnlessMemory result (asm_in (table_view table.now)) }
{
    let (code, profile) = pair(
        needed(alloc, table, "asm", &AssemblerText),
        read_profile(alloc, table),
    )?;
    Ok(installation(alloc, &code, profile)?)
}

/// The operation that installs the code in a file.
fn read_file(alloc: Global, names: &Names<'_>, table: &Table) -> Result<Operation, TableFault>
    ensures { IsUnlessMemory result (file_in names.now.files.now (table_view table.now)) }
{
    let form = FileCode { files: names.files };
    let (code, profile) = pair(
        needed(alloc, table, "file", &form),
        read_profile(alloc, table),
    )?;
    Ok(installation(alloc, &code, profile)?)
}

/// The profile of the verifier under which code is installed, if one is named.
fn read_profile(alloc: Global, table: &Table) -> Result<Option<InstallProfile>, TableFault>
    ensures { IsUnlessMemory result (profile_in (table_view table.now)) }
{
    optional(alloc, table, "profile", &ProfileNumber)
}

fn installation(
    alloc: Global,
    code: &ScriptBytes,
    profile: Option<InstallProfile>,
) -> Result<Operation, AllocError>
    ensures { IfOk result (λ op. op ≡ installing profile ∷ code.now) }
{
    let mut op = Vec::new(alloc);
    op.push(installing(profile))?;
    op.extend_from_slice(code.as_slice())?;
    Ok(Operation::new(Bytes::from_vec(op)))
}

/// The first byte of the operation.
fn installing(profile: Option<InstallProfile>) -> u8
    ensures { result ≡ installing profile }
{
    match profile {
        None | Some(InstallProfile::One) => INSTALL,
        Some(InstallProfile::Two) => INSTALL2,
    }
}

/// The operation that calls a procedure with numbers.
fn read_numbered_call(alloc: Global, table: &Table) -> Result<Operation, TableFault>
    ensures { IsUnlessMemory result (numbered_call_in (table_view table.now)) }
{
    let (procedure, arguments) = pair(
        needed(alloc, table, "call", &Word),
        optional(alloc, table, "numbers", &Numbers),
    )?;
    call(alloc, procedure, &arguments)
}

/// The operation that calls a procedure.
fn read_call(alloc: Global, table: &Table) -> Result<Operation, TableFault>
    ensures { IsUnlessMemory result (call_in (table_view table.now)) }
{
    let (procedure, arguments) = pair(
        needed(alloc, table, "call", &Word),
        optional(alloc, table, "args", &HexBytes),
    )?;
    call(alloc, procedure, &arguments)
}

fn call(
    alloc: Global,
    procedure: u32,
    arguments: &Option<ScriptBytes>,
) -> Result<Operation, TableFault>
    ensures { IsUnlessMemory result (Ok (2 ∷ to_be_bytes w32 procedure ++ arguments_of arguments.now)) }
{
    let mut op = bare_call(alloc, procedure)?;
    if let Some(arguments) = arguments {
        op.extend_from_slice(arguments.as_slice())?;
    }
    Ok(Operation::new(Bytes::from_vec(op)))
}

/// A call without its arguments.
fn bare_call(alloc: Global, procedure: u32) -> Result<Vec<u8>, AllocError>
    ensures { IfOk result (λ op. op.items ≡ 2 ∷ to_be_bytes w32 procedure) }
{
    let mut op = Vec::new(alloc);
    op.push(CALL)?;
    op.extend_from_slice(&procedure.to_be_bytes())?;
    Ok(op)
}

/// Which messages of the queue are delivered, and in which order.
fn read_deliver(alloc: Global, names: &Names<'_>, table: &Table) -> Result<Step, TableFault>
    ensures { IsUnlessMemory result (deliver_in names.now.count names.now.clients.now (table_view table.now)) }
{
    if value_at(table, "choose").is_some() {
        read_chosen_deliver(alloc, names, table)
    } else if value_at(table, "order").is_some() {
        read_drawn_deliver(alloc, names, table)
    } else {
        read_plain_deliver(alloc, names, table)
    }
}

/// The same of a script whose seed is given beside it.
fn read_seeded_deliver(alloc: Global, names: &Names<'_>, table: &Table) -> Result<Step, TableFault>
    ensures { IsUnlessMemory result (seeded_deliver_in names.now.count names.now.clients.now (table_view table.now)) }
{
    if value_at(table, "choose").is_some() {
        read_chosen_deliver(alloc, names, table)
    } else {
        read_drawn_deliver(alloc, names, table)
    }
}

/// Deliveries in the order of the queue.
fn read_plain_deliver(alloc: Global, names: &Names<'_>, table: &Table) -> Result<Step, TableFault>
    ensures { IsUnlessMemory result (plain_deliver_in names.now.count names.now.clients.now (table_view table.now)) }
{
    read_deliver_in(alloc, names, table, Ok(DeliveryOrder::Oldest), &FILTER_KEYS)
}

/// Deliveries in an order that a list chooses.
fn read_chosen_deliver(alloc: Global, names: &Names<'_>, table: &Table) -> Result<Step, TableFault>
    ensures { IsUnlessMemory result (chosen_deliver_in names.now.count names.now.clients.now (table_view table.now)) }
{
    let chosen = read_chosen(alloc, table);
    read_deliver_in(alloc, names, table, chosen, &CHOSEN_KEYS)
}

/// Deliveries in an order that a seed draws, or in that of the queue.
fn read_drawn_deliver(alloc: Global, names: &Names<'_>, table: &Table) -> Result<Step, TableFault>
    ensures { IsUnlessMemory result (drawn_deliver_in names.now.count names.now.clients.now (table_view table.now)) }
{
    let drawn = read_drawn(alloc, table);
    read_deliver_in(alloc, names, table, drawn, &DRAWN_KEYS)
}

/// Deliveries in this order, in a table of these keys.
fn read_deliver_in(
    alloc: Global,
    names: &Names<'_>,
    table: &Table,
    order: Result<DeliveryOrder, TableFault>,
    keys: &[&str],
) -> Result<Step, TableFault>
    ensures { (o : Result OrderSaid TableFault) → IsUnlessMemory order o → IsUnlessMemory result (deliver_with o (map (λ k. k.now) keys.now) names.now.count names.now.clients.now (table_view table.now)) }
{
    let named = pair(order, read_selection(alloc, names, table));
    as_deliver(with_only(named, table, keys))
}

/// What was read of deliveries, as a step.
fn as_deliver(read: Result<(DeliveryOrder, Selection), TableFault>) -> Result<Step, TableFault>
    ensures { (r : Result (OrderSaid × SelectionSaid) TableFault) → IsUnlessMemory read r → IsUnlessMemory result (deliver_from r) }
{
    match read {
        Ok((order, selection)) => Ok(Step::Deliver {
            filter: filter_of(selection),
            order,
        }),
        Err(fault) => Err(fault),
    }
}

/// Which messages are lost.
fn read_drop(alloc: Global, names: &Names<'_>, table: &Table) -> Result<Step, TableFault>
    ensures { IsUnlessMemory result (drop_in names.now.count names.now.clients.now (table_view table.now)) }
{
    let filter = read_filter(alloc, names, table, &FILTER_KEYS)?;
    Ok(Step::Edit(QueueEdit::Drop(filter)))
}

/// Which messages are queued once more.
fn read_repeat(alloc: Global, names: &Names<'_>, table: &Table) -> Result<Step, TableFault>
    ensures { IsUnlessMemory result (repeat_in names.now.count names.now.clients.now (table_view table.now)) }
{
    let filter = read_filter(alloc, names, table, &NAMED_FILTER_KEYS)?;
    Ok(Step::Edit(QueueEdit::Repeat(filter)))
}

/// Which messages are printed.
fn read_queue(alloc: Global, names: &Names<'_>, table: &Table) -> Result<Step, TableFault>
    ensures { IsUnlessMemory result (queue_in names.now.count names.now.clients.now (table_view table.now)) }
{
    let filter = read_filter(alloc, names, table, &NAMED_FILTER_KEYS)?;
    Ok(Step::Print(Printout::Queue(filter)))
}

/// Which messages of the queue are meant, in a table of these keys.
fn read_filter(
    alloc: Global,
    names: &Names<'_>,
    table: &Table,
    keys: &[&str],
) -> Result<Filter, TableFault>
    ensures { IsUnlessMemory result (filter_in (map (λ k. k.now) keys.now) names.now.count names.now.clients.now (table_view table.now)) }
{
    let selection = read_selection(alloc, names, table);
    Ok(filter_of(with_only(selection, table, keys)?))
}

fn filter_of(selection: Selection) -> Filter
    ensures { result ≡ filter_of selection }
{
    let (from, (to, kinds)) = selection;
    Filter { from, to, kinds }
}

/// Whose messages of the queue, for whom and of which kinds.
fn read_selection(alloc: Global, names: &Names<'_>, table: &Table) -> Result<Selection, TableFault>
    ensures { IsUnlessMemory result (selection_in names.now.count names.now.clients.now (table_view table.now)) }
{
    let nodes = ListOf(NodeName {
        count: names.count,
        clients: names.clients,
    });
    pair(
        optional(alloc, table, "from", &nodes),
        pair(
            optional(alloc, table, "to", &nodes),
            optional(alloc, table, "kinds", &ListOf(KindName)),
        ),
    )
}

/// Which messages of the queue are copied, and how the copies are changed.
fn read_mangle(alloc: Global, names: &Names<'_>, table: &Table) -> Result<Step, TableFault>
    ensures { IsUnlessMemory result (mangle_in names.now.count names.now.clients.now (table_view table.now)) }
{
    if value_at(table, "cut").is_some() {
        let cut = read_cut(alloc, table);
        read_mangle_by(alloc, names, table, cut, &CUT_KEYS)
    } else {
        let flip = read_flip(alloc, table);
        read_mangle_by(alloc, names, table, flip, &FLIP_KEYS)
    }
}

/// Copies that are changed so, in a table of these keys.
fn read_mangle_by(
    alloc: Global,
    names: &Names<'_>,
    table: &Table,
    damage: Result<Damage, TableFault>,
    keys: &[&str],
) -> Result<Step, TableFault>
    ensures { (d : Result DamageSaid TableFault) → IsUnlessMemory damage d → IsUnlessMemory result (mangle_with d (map (λ k. k.now) keys.now) names.now.count names.now.clients.now (table_view table.now)) }
{
    let named = pair(damage, read_selection(alloc, names, table));
    as_mangle(with_only(named, table, keys))
}

/// What was read of changed copies, as a step.
fn as_mangle(read: Result<(Damage, Selection), TableFault>) -> Result<Step, TableFault>
    ensures { (r : Result (DamageSaid × SelectionSaid) TableFault) → IsUnlessMemory read r → IsUnlessMemory result (mangle_from r) }
{
    match read {
        Ok((damage, selection)) => Ok(Step::Edit(QueueEdit::Mangle {
            filter: filter_of(selection),
            damage,
        })),
        Err(fault) => Err(fault),
    }
}

fn read_cut(alloc: Global, table: &Table) -> Result<Damage, TableFault>
    ensures { IsUnlessMemory result (damage_at damages.Cut (codes "cut") (table_view table.now)) }
{
    Ok(Damage::Cut(needed(alloc, table, "cut", &UpTo(MAX_INTEGER))?))
}

fn read_flip(alloc: Global, table: &Table) -> Result<Damage, TableFault>
    ensures { IsUnlessMemory result (damage_at damages.Flip (codes "flip") (table_view table.now)) }
{
    Ok(Damage::Flip(needed(alloc, table, "flip", &UpTo(MAX_INTEGER))?))
}

fn read_timeout(alloc: Global, names: &Names<'_>, table: &Table) -> Result<Step, TableFault>
    ensures { IsUnlessMemory result (timeout_in names.now.count (table_view table.now)) }
{
    let replica = ReplicaIndex { count: names.count };
    let named = needed(alloc, table, "at", &ListOf(replica));
    Ok(Step::Timeout(with_only(named, table, &TIMEOUT_KEYS)?))
}

fn read_state(alloc: Global, names: &Names<'_>, table: &Table) -> Result<Step, TableFault>
    ensures { IsUnlessMemory result (state_in names.now.count (table_view table.now)) }
{
    let replica = ReplicaIndex { count: names.count };
    let named = needed(alloc, table, "at", &replica);
    let id = with_only(named, table, &STATE_KEYS)?;
    Ok(Step::Print(Printout::State(id)))
}

fn read_upgrade(alloc: Global, table: &Table) -> Result<Step, TableFault>
    ensures { IsUnlessMemory result (upgrade_in (table_view table.now)) }
{
    let named = needed(alloc, table, "bytes", &HexBytes);
    let bytes = with_only(named, table, &UPGRADE_KEYS)?;
    Ok(Step::Print(Printout::Upgrade(bytes)))
}

fn read_expect(alloc: Global, table: &Table) -> Result<Step, TableFault>
    ensures { IsUnlessMemory result (expect_in (table_view table.now)) }
{
    let named = needed(alloc, table, "lines", &Lines);
    Ok(Step::Expect(with_only(named, table, &EXPECT_KEYS)?))
}
