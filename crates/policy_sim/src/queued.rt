ghost use Rattle.std.specs.Prelude.{◌≡◌, ◌<◌, ◌≤◌, length};
ghost use Rattle.flash_directory.specs.Heads.{read_at};

use arrayvec::ArrayVec;
use second_chance::Frame;
use std::marker::Model;

/// The frames of a group in the queue, in order.
#[derive(Drop)]
pub struct Group {
    frames: ArrayVec<Frame, 8>,
}

impl Model for Group {
    ghost use Rattle.std.specs.Prelude.{List};
    ghost use Rattle.second_chance.specs.declared.frame.Frame.{Frame};

    ghost Value = { List Frame };

    ghost view = { λ g. g.frames.items };
}

impl Group {
    /// A group of these frames.
    pub fn of_frames(frames: ArrayVec<Frame, 8>) -> Group
        ensures { result ≡ frames.items }
    {
        Group { frames }
    }

    /// The frames.
    pub fn as_slice(&self) -> &[Frame]
        ensures frames { result.now ≡ self.now }
        ensures few { length result.now ≤ 8 }
    {
        self.frames.as_slice()
    }

    /// A frame becomes referenced.
    pub fn set_referenced(&mut self, index: usize)
        requires { index < length self.old }
        ensures { self.new ≡ read_at index self.old }
    {
        self.frames[index].referenced = true;
    }
}
