// The outcome of a call as C sees it.

// Kept: numbers and places that are 0 where nothing is named, since C reads them.
// number: 0 accepted, or the number of the refusal. layer: 0 accepted, 1 sealing, 2 card. cause: 1 where zero had no inverse. places: how many of
// sector and key are named, 0, 1 (the sector) or 2 (both); what is not named is 0.
#[repr(C)]
#[derive(Clone, Copy, Default)]
pub struct Outcome {
    pub number: u32,
    pub layer: u32,
    pub cause: u32,
    pub places: u32,
    pub sector: u64,
    pub key: u64,
}
