// What a start finds.
ghost use Rattle.std.specs.Prelude.{◌≡◌, ◌↔◌, ◌<◌, [], length, slice_index_or, IsTrue};

use byte_fields::FrameHead;
use sealed_ring::Ring;
use std::marker::Model;

/// The heads of groups, eight of each, the oldest group first.
#[derive(Drop)]
pub struct HeadList {
    list: Vec<[FrameHead; 8]>,
}

impl Model for HeadList {
    ghost use Rattle.std.specs.Prelude.{List};
    ghost use Rattle.byte_fields.specs.declared.frame_head.FrameHead.{FrameHead};

    ghost Value = { List (List FrameHead) };

    ghost view = { λ l. l.list.items };
}

impl HeadList {
    /// These heads.
    pub(crate) fn of_groups(list: Vec<[FrameHead; 8]>) -> HeadList
        ensures { result ≡ list.items }
    {
        HeadList { list }
    }

    /// How many groups there are.
    pub fn len(&self) -> usize
        ensures { result ≡ length self.now }
    {
        self.list.len()
    }

    /// Whether there is none.
    pub fn is_empty(&self) -> bool
        ensures { IsTrue result ↔ (self.now ≡ []) }
    {
        self.list.is_empty()
    }

    /// The heads of the group at a place, the oldest group at 0.
    pub fn at(&self, group: usize) -> &[FrameHead; 8]
        requires { group < length self.now }
        ensures { result.now ≡ slice_index_or self.now group [] }
    {
        &self.list[group]
    }

    /// All of them.
    pub fn as_slice(&self) -> &[[FrameHead; 8]]
        ensures { result.now ≡ self.now }
    {
        self.list.as_slice()
    }
}

/// The two rings on flash, and the heads of all live groups.
#[derive(Drop)]
pub struct Heads {
    pub groups: Ring,
    pub segments: Ring,
    pub list: HeadList,
}
