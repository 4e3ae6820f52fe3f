// Goes over items in a row, each of which says how long it is.
ghost use Rattle.std.specs.Prelude.{◌≡◌, ◌≤◌, ◌<◌, ◌+◌, ◌^◌, ◌↔◌, List, ℕ, IsTrue, IfErr, MatchResult, length, drop};
ghost use Rattle.wire_spec.specs.declared.malformed.Malformed.{Malformed};
ghost use Rattle.wire_spec.specs.Rows.{IsRow, BreaksRow, Begins};

use wire_spec::Malformed;

/// The rules of a kind of items.
pub trait Items {
    /// An item.
    ghost is: { Self → List ℕ → Type 0 };

    /// What may end a row.
    ghost ends: { Self → List ℕ → Type 0 };

    /// What breaks a rule at its front.
    ghost breaks: { Self → List ℕ → Malformed → Type 0 };

    /// Whether a row may end with these octets.
    fn at_end(&self, octets: &[u8]) -> bool
        ensures { IsTrue result ↔ ends self.now octets.now };

    /// The number of octets of the first item, or the first rule that is broken.
    fn first(&self, octets: &[u8]) -> Result<usize, Malformed>
        requires short { length octets.now < 2 ^ 16 }
        requires some { ends self.now octets.now → ⊥ }
        ensures first { MatchResult result (λ count. Begins (is self.now) octets.now count) (λ fault. breaks self.now octets.now fault) }
        ensures inside { IfErr result (λ fault. fault.at ≤ length octets.now) };
}

/// What follows so many octets.
pub fn behind(octets: &[u8], count: usize) -> &[u8]
    requires { count ≤ length octets.now }
    ensures { result.now ≡ drop count octets.now }
{
    &octets[count..]
}

/// Whether the octets are a row of items, or the first fault.
pub fn check_row<K: Items>(kind: &K, octets: &[u8]) -> Result<(), Malformed>
    requires { length octets.now < 2 ^ 16 }
    ensures row { MatchResult result
        (λ _. (items : List (List ℕ)) × IsRow (K.is kind.now) (K.ends kind.now) octets.now items)
        (λ fault. BreaksRow (K.is kind.now) (K.breaks kind.now) octets.now fault) }
    ensures inside { IfErr result (λ fault. fault.at ≤ length octets.now) }
{
    let mut rest = octets;
    let mut at: u32 = 0;
    while !kind.at_end(rest) {
        match kind.first(rest) {
            Ok(count) => {
                rest = behind(rest, count);
                at += count as u32;
            }
            Err(fault) => {
                return Err(Malformed {
                    kind: fault.kind,
                    at: at + fault.at,
                });
            }
        }
    }
    Ok(())
}
