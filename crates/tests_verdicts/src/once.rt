// Properties that are declared again.
use crate::judged::accepted;
use props_once::once::without_repeats;
use std::test::Fail;

const TWICE: &[u8] =
    b"matrix a csr\nindex q n\nvector x n file\nrange q 0 n\ninjective q\nrange q 0 n\nrange q 0 n+1\ninjective q\nloop i\nset x[q[i]] = 1\nend\n";

#[test]
fn the_first_line_of_each_is_kept(rt: HostRuntime) -> Result<(), Fail> {
    let nest = accepted(rt.alloc(), TWICE)?;
    let once = without_repeats(rt.alloc(), nest.nest().props.as_slice())?;
    let [range, injective, wider] = once.as_slice() else {
        return Err("another number of properties is left".into());
    };
    assert_eq!(rt; (range.line, injective.line, wider.line), (4, 5, 7));
    Ok(())
}
