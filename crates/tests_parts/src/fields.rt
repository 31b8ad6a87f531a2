//! Checksums from outside.
use bv_bytes::{crc_more, crc32};

#[test]
fn crc32_gives_the_published_check_value_however_the_bytes_are_cut(rt: HostRuntime) {
    let message = b"123456789";
    assert_eq!(rt; crc32(message), 0xCBF4_3926);
    for cut in 0..10usize {
        let (front, back) = message.split_at(cut);
        assert_eq!(rt; crc_more(crc32(front), back), 0xCBF4_3926, "cut at {cut}");
    }
}
