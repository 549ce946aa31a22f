//! Chains by their heads, as records come.
ghost use Rattle.std.specs.Prelude.{◌≡◌, IfOk, length};

use super::*;
use std::alloc::{AllocError, Global};
use std::test::Fail;

// So many records, of which each has a hash that is a multiple of 4,096.
fn filled(alloc: Global, count: u32) -> Result<Chains, AllocError>
    ensures { IfOk result (λ c. length c.hashes ≡ count) }
{
    let mut chains = Chains::new(alloc)?;
    for number in 0..count {
        chains.reserve(1)?;
        chains.link(number.wrapping_mul(4_096));
    }
    Ok(chains)
}

// The heads are doubled by the first record that is one too many for them, and each chain is then
// cut in two.
#[test]
fn heads_by_count(rt: HostRuntime) -> Result<(), Fail> {
    let alloc = rt.alloc();
    let rows = [
        (0, 4_096, None, None),
        (4_095, 4_096, Some(4_094), Some(4_094)),
        (4_096, 4_096, Some(4_095), Some(4_095)),
        (4_097, 8_192, Some(4_096), Some(4_095)),
        (8_192, 8_192, Some(8_190), Some(8_191)),
        (8_193, 16_384, Some(8_192), Some(8_189)),
    ];
    for (count, heads, even, odd) in rows {
        let chains = filled(alloc, count)?;
        assert_eq!(rt; (chains.len(), chains.heads()), (count, heads));
        assert_eq!(rt; (chains.head(0), chains.head(4_096)), (even, odd));
        assert_eq!(rt; chains.is_empty(), count == 0);
    }
    let chains = filled(alloc, 4_097)?;
    assert_eq!(rt;
        (
            chains.next(4_096),
            chains.next(4_095),
            chains.next(1),
            chains.next(0)
        ),
        (Some(4_094), Some(4_093), None, None)
    );
    assert_eq!(rt; chains.hashes()[4_096], 4_096 * 4_096);
    Ok(())
}
