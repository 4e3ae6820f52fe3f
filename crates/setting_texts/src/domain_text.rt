// Domain texts.
ghost use Rattle.std.specs.Prelude.{◌≡◌, Some, None, map, option_map, IfOk};
ghost use Rattle.config_spec.specs.Domains.{domain_text, range_of, all_there, pieces, domains};

use crate::decimal_text::number_text;
use crate::marks::cut;
use config_spec::{DomainRange, Ranges};
use std::alloc::{AllocError, Global};

const GREATEST_DOMAIN: u64 = 0xffff_ffff;

/// As many items as a domain text may have.
const MOST_ITEMS: usize = 64;

fn domain_text(text: &str) -> Option<u32>
    ensures { result ≡ domain_text text.now }
{
    match number_text(GREATEST_DOMAIN, text) {
        Some(number) => Some(number as u32),
        None => None,
    }
}

/// The domains that an item names.
#[tactic(auto, unfolding(config_spec::specs::Domains::range_of))]
fn range_of(text: &str) -> Option<DomainRange>
    ensures { result ≡ range_of text.now }
{
    match cut('-', text) {
        Some((low, high)) => match domain_text(low) {
            Some(low) => match domain_text(high) {
                Some(high) => {
                    if low <= high {
                        Some(DomainRange { low, high })
                    } else {
                        None
                    }
                }
                None => None,
            },
            None => None,
        },
        None => match domain_text(text) {
            Some(domain) => Some(DomainRange {
                low: domain,
                high: domain,
            }),
            None => None,
        },
    }
}

fn pieces<'a>(alloc: Global, text: &'a str) -> Result<Vec<&'a str>, AllocError>
    ensures { IfOk result (λ made. map (λ piece. piece.now) made.items ≡ pieces text.now) }
{
    text.split(',').collect(alloc)
}

fn ranges_of(alloc: Global, parts: &[&str]) -> Result<Option<Vec<DomainRange>>, AllocError>
    ensures { IfOk result (λ made. option_map (λ ranges. ranges.items) made ≡ all_there (map range_of (map (λ piece. piece.now) parts.now))) }
{
    let mut made = Vec::new(alloc);
    for part in parts {
        match range_of(part) {
            Some(range) => made.push(range)?,
            None => return Ok(None),
        }
    }
    Ok(Some(made))
}

/// The domains of a domain text.
#[tactic(auto, unfolding(config_spec::specs::Domains::domains))]
pub fn domains(alloc: Global, text: &str) -> Result<Option<Ranges>, AllocError>
    ensures { IfOk result (λ made. made ≡ domains text.now) }
{
    let parts = pieces(alloc, text)?;
    if parts.len() > MOST_ITEMS {
        return Ok(None);
    }
    match ranges_of(alloc, &parts)? {
        Some(ranges) => Ok(Some(Ranges::from_vec(ranges))),
        None => Ok(None),
    }
}
