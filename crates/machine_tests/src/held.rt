//! Calls that repeat contracts of code_commands which no proof above it uses: a clause that says less fails here.

ghost use Rattle.std.specs.Prelude.{◌≡◌, ◌⊎◌, IfOk, IfErr, Ok, Err, map};
ghost use Rattle.code_commands.specs.Calls.{calls_of_text, said};
ghost use Rattle.code_commands.specs.MapTexts.{map_of_text};
ghost use Rattle.code_commands.specs.Numbers.{bytes_of_numbers};
ghost use Rattle.code_commands.specs.declared.call_text.CallKind.TheVariants as calls;
ghost use Rattle.code_commands.specs.declared.decimal.NumberKind.TheVariants as numbers;
ghost use Rattle.code_commands.specs.declared.map_text.MapKind.TheVariants as maps;

use code_commands::{Call, CallFault, MapFault, NumberFault, read_calls, read_map, read_numbers};
use host_types::ClientId;
use std::alloc::Global;
use tenant_maps::TenantMap;

/// The map that a text is.
pub fn map_in(alloc: Global, text: &str) -> Result<TenantMap, MapFault>
    ensures found { IfOk result (λ found. map_of_text text.now ≡ Ok found.entries) }
    ensures refused { IfErr result (λ fault.
        (fault.kind ≡ maps.Memory) ⊎ (map_of_text text.now ≡ Err (fault.kind, fault.line))) }
{
    read_map(alloc, text)
}

/// The calls of a text.
pub fn calls_in(alloc: Global, client: ClientId, text: &str) -> Result<Vec<Call>, CallFault>
    ensures found { IfOk result (λ calls. calls_of_text client text.now ≡ Ok (map said calls.items)) }
    ensures refused { IfErr result (λ fault.
        (fault.kind ≡ calls.Memory) ⊎ (calls_of_text client text.now ≡ Err (fault.kind, fault.line))) }
{
    read_calls(alloc, client, text)
}

/// The bytes of a text of numbers.
pub fn bytes_in(alloc: Global, text: &str) -> Result<Vec<u8>, NumberFault>
    ensures found { IfOk result (λ bytes. bytes_of_numbers text.now ≡ Ok bytes.items) }
    ensures refused { IfErr result (λ fault.
        (fault.kind ≡ numbers.Memory) ⊎ (bytes_of_numbers text.now ≡ Err (fault.kind, fault.place))) }
{
    read_numbers(alloc, text)
}
