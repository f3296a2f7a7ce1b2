//! Which slot of a root counts, with all that it names, and whether a program can open a store by it.

ghost use Rattle.std.specs.Prelude.{◌≡◌};
ghost use Rattle.ax_area.specs.Root.{chosen, named, TellsSlot};

use ax_disk::Extent;
use ax_frame::RootSlot;

/// One of the two slots of a root.
#[derive(Clone, Copy, Debug, PartialEq, Eq)]
pub enum Which {
    /// The slot at 0.
    First,
    /// The slot at 16.
    Second,
}

/// The slot that counts.
#[derive(Clone, Copy, Debug, PartialEq, Eq)]
pub struct Counting {
    /// Which of the two it is.
    pub which: Which,
    /// The version of the format, from 1 on.
    pub version: u16,
    /// The area whose log frames count.
    pub area: Extent,
    /// The generation, which rises each time that the other slot comes to count.
    pub generation: u64,
}

/// What the two slots of a root say.
#[derive(Clone, Copy, Debug, PartialEq, Eq)]
pub enum RootChoice {
    /// No slot counts: both are closed, or the root is shorter than 33 bytes. The store is fresh.
    Fresh,
    /// One counts.
    Counts(Counting),
    /// An open slot names nothing, or two open ones have one generation.
    Damaged {
        /// The slot's offset in the root: 0 or 16.
        at: u64,
    },
}

/// What the slot that counts is to a program that knows the versions up to a newest one.
#[derive(Clone, Copy, Debug, PartialEq, Eq)]
pub enum Judgement {
    /// The store can be opened.
    Known,
    /// The version is a later one.
    Newer,
    /// The version is an older one, and the generation is the last, so that the store can't be raised.
    Worn,
}

/// Of two root slots the one that counts.
pub fn choose(first: RootSlot, second: RootSlot) -> RootChoice
    ensures { result ≡ chosen first second }
{
    match first {
        RootSlot::Bad => RootChoice::Damaged { at: 0 },
        RootSlot::Closed => alone(second),
        RootSlot::Live {
            version,
            area,
            generation,
        } => beside(version, area, generation, second),
    }
}

/// What the second slot says where the first is closed.
fn alone(second: RootSlot) -> RootChoice
    ensures { result ≡ chosen RootSlot.Closed second }
{
    match second {
        RootSlot::Bad => RootChoice::Damaged { at: 16 },
        RootSlot::Closed => RootChoice::Fresh,
        RootSlot::Live {
            version,
            area,
            generation,
        } => opened(Which::Second, version, area, generation),
    }
}

/// Which slot counts where the first is open and names these.
fn beside(version: u16, area: u8, generation: u64, second: RootSlot) -> RootChoice
    ensures { result ≡ chosen (RootSlot.Live version area generation) second }
{
    match second {
        RootSlot::Bad => RootChoice::Damaged { at: 16 },
        RootSlot::Closed => opened(Which::First, version, area, generation),
        RootSlot::Live {
            version: version_2,
            area: area_2,
            generation: generation_2,
        } => {
            if generation == generation_2 {
                return RootChoice::Damaged { at: 16 };
            }
            if generation_2 < generation {
                return opened(Which::First, version, area, generation);
            }
            opened(Which::Second, version_2, area_2, generation_2)
        }
    }
}

/// An open slot counts.
fn opened(which: Which, version: u16, area: u8, generation: u64) -> RootChoice
    ensures { result ≡ named which version area generation }
{
    let area = if area == 1 { Extent::A } else { Extent::B };
    RootChoice::Counts(Counting {
        which,
        version,
        area,
        generation,
    })
}

/// What the slot that counts is to a program that knows the versions up to this one.
pub fn judge(newest: u16, slot: Counting) -> Judgement
    ensures { TellsSlot newest slot result }
{
    if newest < slot.version {
        return Judgement::Newer;
    }
    if slot.version < newest && slot.generation == u64::MAX {
        return Judgement::Worn;
    }
    Judgement::Known
}
