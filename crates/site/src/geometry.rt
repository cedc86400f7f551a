// How large the three devices are.
ghost use Rattle.std.specs.Prelude.{◌≡◌, IfSome, Some};
ghost use Rattle.site.specs.Geometry.{HasLimits, log_length, flash_length, disk_length};

/// How many pages the disk has, how many groups of frames the flash, and how many blocks the log.
#[derive(Clone, Copy, Debug, PartialEq, Eq, Drop)]
pub struct Geometry {
    pub pages: u32,
    pub groups: u32,
    pub blocks: u32,
}

impl Geometry {
    /// The geometry within the limits whose devices have these lengths in octets, if there is one.
    pub fn of_lengths(log: u64, flash: u64, disk: u64) -> Option<Geometry>
        ensures limits { IfSome result (λ g. HasLimits g) }
        ensures lengths { IfSome result (λ g. (log ≡ log_length g) × (flash ≡ flash_length g)
            × (disk ≡ disk_length g)) }
        ensures found { (g : Geometry) → HasLimits g → log ≡ log_length g → flash ≡ flash_length g
            → disk ≡ disk_length g → result ≡ Some g }
    {
        if log < 1_536 || flash < 3_072 {
            return None;
        }
        let pages = disk / 4_096;
        let fours = (flash - 3_072) / 134_144;
        let blocks = (log - 1_536) / 512;
        if pages < 1
            || pages > 65_536
            || fours < 2
            || fours > 4_096
            || blocks < 16
            || blocks > 1_048_576
        {
            return None;
        }
        if log != 1_536 + 512 * blocks
            || flash != 3_072 + 134_144 * fours
            || disk != 4_096 * pages
        {
            return None;
        }
        Some(Geometry {
            pages: pages as u32,
            groups: 4 * fours as u32,
            blocks: blocks as u32,
        })
    }

    /// The lengths in octets of log, flash and disk.
    pub fn lengths(&self) -> (u64, u64, u64)
        ensures log { result.0 ≡ log_length self.now }
        ensures flash { result.1 ≡ flash_length self.now }
        ensures disk { result.2 ≡ disk_length self.now }
    {
        let pages = self.pages as u64;
        let groups = self.groups as u64;
        let blocks = self.blocks as u64;
        (
            1_536 + 512 * blocks,
            33_280 * groups + 1_024 * (groups / 4 + 3),
            4_096 * pages,
        )
    }
}
