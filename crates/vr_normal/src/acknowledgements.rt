// How much the others have acknowledged.
ghost use Rattle.std.specs.Prelude.{◌≡◌, IfOk};
ghost use Rattle.vr_normal.specs.Rules.{acknowledging, reached_beside, with_acknowledgement};

use std::alloc::{AllocError, Global};

/// The acknowledgements with one more, that `from` has so many records; they never fall. Its only error is want of
/// memory.
pub fn with_acknowledgement(
    alloc: Global,
    acknowledged: &[u64],
    from: u64,
    op_number: u64,
) -> Result<Vec<u64>, AllocError>
    ensures { IfOk result (λ after. after.items ≡ with_acknowledgement acknowledged.now from op_number) }
{
    let mut after = Vec::new(alloc);
    after.extend_from_slice(acknowledged)?;
    if (from as usize) < after.len() {
        after[from as usize] = after[from as usize].max(op_number);
    }
    Ok(after)
}

/// How many of all but `index` have at least so many records.
pub fn acknowledging(acknowledged: &[u64], index: u64, least: u64) -> u64
    ensures { result ≡ acknowledging acknowledged.now index least }
{
    let mut found = 0;
    for other in 0..acknowledged.len() as u64 {
        if other != index && least <= acknowledged[other as usize] {
            found += 1;
        }
    }
    found
}

/// The greatest number of records that half of all replicas, rounded down, have acknowledged beside `index`; 0 if there
/// is none.
pub fn reached(acknowledged: &[u64], index: u64) -> u64
    ensures { result ≡ reached_beside acknowledged.now index }
{
    let half = acknowledged.len() as u64 / 2;
    let mut most = 0;
    for other in 0..acknowledged.len() as u64 {
        if other != index {
            let had = acknowledged[other as usize];
            if half <= acknowledging(acknowledged, index, had) {
                most = had.max(most);
            }
        }
    }
    most
}
