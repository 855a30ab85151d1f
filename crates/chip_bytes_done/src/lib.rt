// Events done in the bytes of a kept chip, with only what each moves read and written: a scan; a tick, and ticks of one value; and those that are seldom met.
#![tactic(auto)]

pub mod scan;
pub mod seldom;
pub mod tick;
