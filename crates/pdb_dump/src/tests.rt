use crate::{container_text, damage_text};
use msf_image::{DamageKind, is_packable, new_file, open_image};
use srv_edge::MemDevice;
use std::test::Fail;

// A file of no streams has five blocks: the superblock, a block of each map, the directory and the
// block map.
#[test]
fn lines_of_a_file_and_of_a_damage(rt: HostRuntime) -> Result<(), Fail> {
    let alloc = rt.alloc();
    let damage = damage_text(alloc, DamageKind::BlockTwice, 4_294_967_296)?;
    assert_eq!(rt;
        damage.as_slice(),
        b"damage block-twice 4294967296\n".as_slice()
    );
    let fits = is_packable(512, &[]);
    assert!(rt; fits);
    let file = new_file(alloc, 512, &[])?;
    let mut device = MemDevice::new(alloc, file, Vec::new(alloc));
    let Ok(image) = open_image(alloc, &mut device, 100) else {
        return Err(Fail::new("it does not open"));
    };
    let line = container_text(alloc, &image)?;
    let want = b"msf block=512 blocks=5 streams=0 free=0\n";
    assert_eq!(rt; line.as_slice(), want.as_slice());
    Ok(())
}
