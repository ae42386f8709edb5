// Where bases are enumerated.
use claims::Helpers;
use std::alloc::Global;

// What stays the same while bases are enumerated: what starts threads, the allocator, the helpers
// and the gate.
#[derive(Drop)]
pub(crate) struct Workshop<'a, R, G> {
    pub rt: &'a R,
    pub alloc: Global,
    pub helpers: &'a Helpers,
    pub gate: &'a G,
}
