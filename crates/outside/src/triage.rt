//! A caller that uses only the public contracts of triage. From them it concludes that each race has a schedule, and
//! that no schedule shows two locations that are apart.

mod deciding;

pub use deciding::decide;
