//! The session that ports with modem lines were played, by their log and their journals; and what it is before anything
//! was passed down.
#![tactic(auto)]

mod carriers;
mod passing;
mod sessions;

pub use carriers::carrier_name;
pub use sessions::{base_of, derive_session};
