//! Laws of the service, each on a function with an empty body.

ghost use Rattle.std.specs.Prelude.{◌≡◌, ◌⊎◌, ◌+◌, ◌^◌, ◌<◌, ◌≤◌, ℕ, length, All, Option, Some, IfSome, List, [], ◌∷◌, ◌++◌};
ghost use Rattle.host_types.specs.declared.request.Request.{Request};
ghost use Rattle.host_types.specs.declared.request.Reply.{Reply};
ghost use Rattle.service_model.specs.declared.outcome.Outcome.{Outcome};
ghost use Rattle.host_types.specs.Configuration.{Configuration, IsConfiguration};
ghost use Rattle.service_model.specs.TenantStates.{TenantState, Service, genesis_of, tenant_at, tenant_of, last_reply_of};
ghost use Rattle.service_model.specs.Steps.{IsStep, Serves};
ghost use Rattle.service_model.specs.Sound.{IsSound, NoneGoesWrong};
ghost use Rattle.service_model.specs.Bounded.{IsBounded};
ghost use Rattle.service_model.specs.Asked.{CanAsk, HasTenantMaps};
ghost use Rattle.service_model.specs.declared.version.Version.{Version};
ghost use Rattle.service_model.specs.Decoding.{EncodesIn, Decodes};
ghost use Rattle.service_model.specs.Encoding.{encoded};

/// A step of the service has one outcome: the state and the request determine the state after it and
/// what is answered.
pub fn a_step_has_one_outcome()
    ensures { (state : Service) (request : Option Request) (after after' : Service) (outcome outcome' : Outcome) →
        IsStep state request after outcome → IsStep state request after' outcome' → (after ≡ after') × (outcome ≡ outcome') }
{}

/// A request is its tenant's: what comes of it follows from the number and from the part of its client's tenant
/// alone. Where two states agree on both, the request leaves that tenant the same part and has the same outcome.
/// Every other tenant's part stays as it was.
pub fn a_request_is_its_tenants()
    ensures same { (state other : Service) (request : Request) (after after' : Service) (outcome outcome' : Outcome) →
        state.number ≡ other.number → tenant_of state request.client.0 ≡ tenant_of other request.client.0 →
        IsStep state (Some request) after outcome → IsStep other (Some request) after' outcome' →
        (tenant_of after request.client.0 ≡ tenant_of after' request.client.0) × (outcome ≡ outcome') }
    ensures others { (state : Service) (request : Request) (after : Service) (outcome : Outcome) (part : TenantState) (tenant : ℕ) →
        IsStep state (Some request) after outcome → tenant_of state request.client.0 ≡ Some part →
        (tenant ≡ part.tenant → ⊥) → tenant_at after.tenants tenant ≡ tenant_at state.tenants tenant }
{}

/// Every procedure of a state that the service reaches is code that the verifier accepts under its profile, and every
/// last reply is one to a client of its tenant.
pub fn states_are_sound()
    ensures first { (config : Configuration) → IsSound (genesis_of config) }
    ensures next { (state : Service) (request : Option Request) (after : Service) (outcome : Outcome) →
        IsSound state → IsStep state request after outcome → IsSound after }
{}

/// A list of requests, taken from the beginning, has one outcome, and one step after it makes that of
/// the list with one request more.
pub fn requests_have_one_outcome()
    ensures one { (config : Configuration) (requests : List (Option Request)) (after after' : Service) (outcomes outcomes' : List Outcome) →
        Serves config requests after outcomes → Serves config requests after' outcomes' → (after ≡ after') × (outcomes ≡ outcomes') }
    ensures more { (config : Configuration) (requests : List (Option Request)) (state : Service) (outcomes : List Outcome) (request : Option Request) (after : Service) (outcome : Outcome) →
        Serves config requests state outcomes → IsStep state request after outcome → Serves config (requests ++ request ∷ []) after (outcomes ++ outcome ∷ []) }
{}

/// Whatever was asked for, no installed procedure goes wrong: its code was accepted, and so, with any
/// arguments, for any client and over any map, it never gets stuck and ends within its bound.
pub fn installed_procedures_cannot_go_wrong()
    ensures { (config : Configuration) (requests : List (Option Request)) (after : Service) (outcomes : List Outcome) →
        Serves config requests after outcomes → NoneGoesWrong after }
{}

/// A state's bytes determine the state: two states that the service reaches under one configuration are
/// equal where their bytes are. So bytes are an encoding of one state at most, of whichever version.
pub fn equal_bytes_are_equal_states()
    ensures canonical { (state other : Service) → IsBounded state → IsBounded other → IsSound state → IsSound other →
        state.config ≡ other.config → encoded state ≡ encoded other → state ≡ other }
    ensures decoded { (config : Configuration) (bytes : List ℕ) (state other : Service) →
        Decodes config bytes state → Decodes config bytes other → state ≡ other }
{}

/// Every state that the service reaches keeps its bounds. A request's client and time have their
/// ranges, and the number stays below 2^48. A last reply is one to its client, and after a step with a
/// reply it is that one. Its bytes are at most 5,788,337, which a message has room for.
pub fn states_are_bounded()
    ensures first { (config : Configuration) → IsConfiguration config → IsBounded (genesis_of config) }
    ensures next { (state : Service) (request : Option Request) (after : Service) (outcome : Outcome) →
        IsBounded state → state.number + 1 < 2 ^ 48 → IfSome request (λ r. (r.client.0 < 2 ^ 32) × (r.time < 2 ^ 64)) →
        IsStep state request after outcome → IsBounded after }
    ensures own { (state : Service) → IsBounded state → (client : ℕ) (reply : Reply) →
        last_reply_of state client ≡ Some reply → reply.client.0 ≡ client }
    ensures length { (state : Service) → IsBounded state → length (encoded state) ≤ 5_788_337 }
    ensures last { (state : Service) (request : Request) (after : Service) (outcome : Outcome) (reply : Reply) →
        IsStep state (Some request) after outcome → outcome.reply ≡ Some reply → last_reply_of after request.client.0 ≡ Some reply }
{}

/// Each tenant's map stays a tenant's map, of keys and values that are bytes, where each operation that
/// is asked for is a list of bytes. A state whose encoding is a list of bytes has such maps.
pub fn maps_stay_maps()
    ensures first { (config : Configuration) → HasTenantMaps (genesis_of config) }
    ensures next { (state : Service) (request : Option Request) (after : Service) (outcome : Outcome) →
        HasTenantMaps state → IfSome request (λ r. All (λ byte. byte < 256) r.op) →
        IsStep state request after outcome → HasTenantMaps after }
    ensures read { (state : Service) → IsBounded state → All (λ byte. byte < 256) (encoded state) → HasTenantMaps state }
{}

/// A step exists, and so the service never stops for want of one: from each bounded and sound state with
/// tenants' maps, for the null request and for every request that a client of the configuration can make. Hence a list of
/// such requests, taken from the beginning, has an outcome.
pub fn a_step_exists()
    ensures one { (state : Service) (request : Option Request) →
        IsBounded state → IsSound state → HasTenantMaps state → IfSome request (CanAsk state.config) →
        (after : Service) × (outcome : Outcome) × IsStep state request after outcome }
    ensures all { (config : Configuration) (requests : List (Option Request)) →
        All (λ request. IfSome request (CanAsk config)) requests →
        (after : Service) × (outcomes : List Outcome) × Serves config requests after outcomes }
{}

/// Whether bytes encode a state under a configuration is decided, for each version and every list of bytes: a decoder
/// finds the state that they encode, or they encode none.
pub fn an_encoding_is_decided()
    ensures { (version : Version) (config : Configuration) (bytes : List ℕ) →
        ((state : Service) × EncodesIn version config bytes state) ⊎ ((state : Service) → EncodesIn version config bytes state → ⊥) }
{}
