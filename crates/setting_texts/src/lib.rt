//! The texts that a description has in its values: numbers, addresses, prefixes and domains.
//!
//! Each function is the reading that `config_spec` defines. Contracts see an address as its octets. `setting_tables` judges
//! texts by these functions, and `startup_config` takes their values.
#![tactic(auto)]

mod address_text;
mod decimal_text;
mod domain_text;
mod marks;

pub use address_text::{AddressOctets, address, prefix, prefix_parts};
pub use decimal_text::number_text;
pub use domain_text::domains;
