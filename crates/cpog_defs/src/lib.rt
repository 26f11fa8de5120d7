//! What `cpog` is about, in the words of the field: walks, orders, codes, gates, conditional graphs, and what it
//! means that an encoding fits its scenarios. The definitions stand in `specs/`; the only bodies make a number a place.
//! Nothing stands below it. It promises nothing by itself: the crates above cite it in what they promise.
#![tactic(auto)]

pub mod types;
