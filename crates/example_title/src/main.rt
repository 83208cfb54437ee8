// Writes the file of the example title: three pictures as units, one after the other. Its output is the file title.sub of crates/list.
#![tactic(auto)]

// What a write that fails leaves unwritten stays so.
fn unit(rt: &impl Print, width: usize, height: usize, picture: &[u8]) {
    let mut out = [0u8; 256];
    if let Ok(n) = demo::build_demo_spu(width, height, picture, &mut out)
        && let Some(unit) = out.get(..n)
    {
        let _ = rt.write_all(unit);
    }
}

fn main(rt: HostRuntime) {
    unit(&rt, 2, 2, &[1, 1, 2, 3]);
    // a frame
    unit(
        &rt,
        8,
        5,
        &[
            1, 1, 1, 1, 1, 1, 1, 1, 1, 0, 0, 0, 0, 0, 0, 1, 1, 0, 2, 2, 2, 2, 0, 1, 1, 0, 0, 0, 0,
            0, 0, 1, 1, 1, 1, 1, 1, 1, 1, 1,
        ],
    );
    // a slope
    unit(
        &rt,
        6,
        3,
        &[3, 0, 0, 0, 0, 0, 3, 3, 3, 0, 0, 0, 3, 3, 3, 3, 3, 0],
    );
}
