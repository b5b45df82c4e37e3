//! A law of maps' texts, on a function with an empty body.

ghost use Rattle.std.specs.Prelude.{◌≡◌, Ok};
ghost use Rattle.tenant_maps.specs.Entries.{Entries, IsTenantMap};
ghost use Rattle.code_commands.specs.MapTexts.{map_of_text, map_text};

/// The text of a tenant's map is read as that map.
#[tactic(auto, using(crate::proofs::Back::there_and_back))]
pub fn a_printed_map_is_read_back()
    ensures { (entries : Entries) → IsTenantMap entries → map_of_text (map_text entries) ≡ Ok entries }
{}
