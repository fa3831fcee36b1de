// States of other lengths than two blocks.
use crate::{Kind, Reference};
use std::test::Fail;

#[test]
fn mixing_keeps_the_length_of_a_state(rt: HostRuntime) -> Result<(), Fail> {
    let reference = Reference::new(rt.alloc());
    for kind in [Kind::Narrow, Kind::Wide, Kind::Exchange] {
        for len in 0..70usize {
            let state = vec![in rt.alloc(); 1u8; len]?;
            assert_eq!(rt; reference.mix(kind, &state)?.len(), len);
        }
    }
    Ok(())
}
