// The lines of counts.
use pipeline_message::RunCounts;
use std::alloc::AllocError;
use std::fmt::Write;

/// A line for each count, in their order.
pub fn put_counts(text: &mut String, counts: RunCounts) -> Result<(), AllocError> {
    let rows = [
        ("sessions", counts.sessions),
        ("messages", counts.messages),
        ("records", counts.records),
        ("malformed", counts.malformed),
        ("late", counts.late),
        ("skipped", counts.skipped),
        ("ignored", counts.ignored),
        ("redefined", counts.redefined),
        ("lost", counts.lost),
        ("disordered", counts.disordered),
        ("torn", counts.torn),
        ("broken", counts.broken),
        ("refused", counts.refused),
        ("crowded", counts.crowded),
        ("stray", counts.stray),
    ];
    for (name, count) in rows {
        writeln!(text, "{name} {count}")?;
    }
    Ok(())
}
