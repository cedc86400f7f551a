use crate::{GROUP_LEN, PAGE_LEN, group_heads, put_frame};
use byte_fields::{BadHead, FrameHead, get_u64};

#[tactic(auto, unfolding(crate::specs::Groups::lsn_of))]
#[test]
fn makes_and_reads_a_group(rt: HostRuntime) {
    let mut page = [0; PAGE_LEN];
    page[7] = 0x29;
    page[4_095] = 9;
    let dirty = FrameHead {
        present: true,
        dirty: true,
        page: 7,
        lsn: get_u64(&page, 0),
    };
    assert_eq!(rt; dirty.lsn, 41);
    let clean = FrameHead {
        dirty: false,
        page: 258,
        ..dirty
    };
    let mut content = [0; GROUP_LEN];
    assert_eq!(rt; group_heads(&content), Err(BadHead));
    put_frame(&mut content, 0, &dirty, &page);
    put_frame(&mut content, 1, &clean, &page);
    assert_eq!(rt;
        &content[..16],
        &[1, 1, 0, 0, 0, 0, 0, 7, 0, 0, 0, 0, 0, 0, 0, 0x29][..]
    );
    assert_eq!(rt;
        &content[16..32],
        &[1, 0, 0, 0, 0, 0, 1, 2, 0, 0, 0, 0, 0, 0, 0, 0x29][..]
    );
    assert_eq!(rt; &content[32..128], &[0; 96][..]);
    assert_eq!(rt; &content[128..4_224], &page[..]);
    assert_eq!(rt; &content[4_224..8_320], &page[..]);
    assert_eq!(rt; content[8_319], 9);
    assert_eq!(rt; &content[8_320..8_336], &[0; 16][..]);
    let heads = group_heads(&content);
    let blank = FrameHead::BLANK;
    assert_eq!(rt;
        heads,
        Ok([dirty, clean, blank, blank, blank, blank, blank, blank])
    );
}

// A place among the heads and an octet there that make a group of two frames bad: no head, a gap, an
// absent head with a page, a third frame with a dirty mark of two.
const BAD: [(usize, u8); 5] = [(2, 1), (0, 0), (48, 1), (39, 1), (17, 2)];

#[tactic(auto, unfolding(crate::specs::Groups::lsn_of))]
#[test]
fn refuses_what_is_no_group(rt: HostRuntime) {
    let page = [0; PAGE_LEN];
    let head = FrameHead {
        present: true,
        dirty: true,
        page: 7,
        lsn: get_u64(&page, 0),
    };
    let mut group = [0; GROUP_LEN];
    put_frame(&mut group, 0, &head, &page);
    put_frame(&mut group, 1, &head, &page);
    assert!(rt; group_heads(&group).is_ok());
    for (place, octet) in BAD {
        let mut content = group;
        content[place] = octet;
        assert_eq!(rt; group_heads(&content), Err(BadHead));
    }
}
