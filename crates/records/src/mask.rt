// Core masks: bit N permits core N.
ghost use Rattle.std.specs.Prelude.{◌≡◌};
ghost use Rattle.records.specs.Mask.{permits, stored_mask};

use crate::MAX_CPUS;

// The mask that permits every core.
pub const ALL_CORES: u64 = !0u64;

// Whether the mask permits the core, which is taken modulo 64.
pub fn mask_permits(mask: u64, core: usize) -> bool
    ensures { result ≡ permits mask core }
{
    (mask >> (core % MAX_CPUS)) % 2 == 1
}

// The mask as a record keeps it: 0, document 01's number for all cores, would permit none.
pub fn stored_mask(mask: u64) -> u64
    ensures { result ≡ stored_mask mask }
{
    if mask == 0 { ALL_CORES } else { mask }
}
