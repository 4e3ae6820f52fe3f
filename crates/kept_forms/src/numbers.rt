// The numbers under which forms are kept.
ghost use Rattle.std.specs.Prelude.{◌≡◌, ◌<◌, ◌^◌, ℕ};
ghost use Rattle.col_base.specs.declared.base.SessionKey.{SessionKey};
ghost use Rattle.kept_forms.specs.Kept.{session_number, template_number};

use col_base::SessionKey;

/// A number of its own for each session.
pub(crate) fn session_number(session: SessionKey) -> u64
    ensures { result ≡ session_number session }
{
    u64::from(session.input) * (1 << 32) + u64::from(session.number)
}

/// A number of its own for each Template ID of a domain.
pub(crate) fn template_number(domain: u32, template: u16) -> u64
    ensures { result ≡ template_number domain template }
{
    u64::from(domain) * (1 << 16) + u64::from(template)
}

/// Two sessions have two numbers, and two Template IDs of domains have two.
pub fn each_has_its_own_number()
    ensures sessions { (a b : SessionKey) → a.number < 2 ^ 32 → b.number < 2 ^ 32 → session_number a ≡ session_number b → a ≡ b }
    ensures templates { (domain other template id : ℕ) → template < 2 ^ 16 → id < 2 ^ 16 → template_number domain template ≡ template_number other id → (domain ≡ other) × (template ≡ id) }
{}
