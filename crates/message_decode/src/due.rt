// Sequence numbers (RFC 7011, section 3.1): a message has the number of the one before it and its data records, modulo
// 2^32.
ghost use Rattle.std.specs.Prelude.{◌≡◌, ◌<◌, ◌^◌, ◌%◌, ◌+◌, [], if◌then◌else◌, option_map, None, Some};
ghost use Rattle.count_spec.specs.Counts.{gap, is_behind, next_number};
ghost use Rattle.message_decode.specs.Due.{due_by};

/// From here on a number lies behind the one that is due, and not before it: half of all numbers.
const HALF: u32 = 1 << 31;

/// How many sequence numbers there are.
const NUMBERS: u64 = 1 << 32;

/// The number that is due behind a message of this one, as long as it has no set.
pub fn due_first(seq: u32) -> Option<u32>
    ensures { result ≡ next_number seq [] }
{
    Some(seq)
}

/// So many data records more were decoded.
pub fn due_later(due: Option<u32>, records: u64) -> Option<u32>
    ensures { result ≡ due_by due records }
{
    match due {
        Some(number) => Some(((u64::from(number) + records % NUMBERS) % NUMBERS) as u32),
        None => None,
    }
}

/// How far a number is ahead of the one that is due, modulo 2^32: 0 where none is due.
fn gap(seq: u32, due: Option<u32>) -> u32
    ensures { result ≡ gap seq due }
{
    match due {
        Some(number) => seq.wrapping_sub(number),
        None => 0,
    }
}

/// Whether a number lies behind the one that is due.
pub fn is_behind(seq: u32, due: Option<u32>) -> bool
    ensures { result ≡ is_behind (gap seq due) }
{
    gap(seq, due) >= HALF
}

/// How many data records are missing before a message of this number, none where it lies behind the one that is due.
pub fn lost(seq: u32, due: Option<u32>) -> u32
    ensures { result ≡ (if is_behind (gap seq due) then 0 else gap seq due) }
{
    if is_behind(seq, due) {
        return 0;
    }
    gap(seq, due)
}
