//! A drawn release, and the frames that bring it.

ghost use Rattle.std.specs.Prelude.{◌≡◌, IfOk};
ghost use Rattle.component_package.specs.mote.Frames.{stream_of};
ghost use Rattle.update_laws.specs.Update.{update_frames};
ghost use Rattle.drawn_releases.specs.Generator.{begun, next_release};

use component_package::NoMemory;
use drawn_releases::{Delivered, Drawn, releases_fit, update};
use std::alloc::{AllocError, Global};
use std::marker::Model;

/// A drawn release. Whatever number it was drawn from, it fits the frames of an update.
#[derive(Drop)]
pub(crate) struct Release {
    drawn: Drawn,
}

impl Model for Release {
    ghost use Rattle.drawn_releases.specs.Generator.{Drawn};
    ghost use Rattle.rehearsal.specs.Releases.{IsRelease};

    ghost Value = { Drawn };

    ghost view = { λ r. r.drawn };

    ghost invariant = { λ r. IsRelease r.drawn };
}

impl Release {
    /// What a number begins with: no package.
    pub(crate) fn begin(alloc: Global, number: u32) -> Release
        ensures { result ≡ begun number }
    {
        Release {
            drawn: Drawn::begin(alloc, number),
        }
    }

    /// The release after this one. `NoMemory` is the one answer but Ok.
    pub(crate) fn advance(self, alloc: Global) -> Result<Release, NoMemory>
        ensures { IfOk result (λ r. r ≡ next_release self) }
    {
        let mut drawn = self.drawn;
        drawn.advance(alloc)?;
        Ok(Release { drawn })
    }

    /// Its packages, in the order in which they are linked.
    pub(crate) fn packages(&self) -> &[Delivered]
        ensures { result.now ≡ self.now.packages }
    {
        self.drawn.packages()
    }

    /// The number of the program, from 1, in which power is cut while it is installed.
    pub(crate) fn stop(&self) -> u16
        ensures { result ≡ self.now.stop }
    {
        self.drawn.stop()
    }

    /// What each byte of the page of that program then holds.
    pub(crate) fn fill(&self) -> u8
        ensures { result ≡ self.now.fill }
    {
        self.drawn.fill()
    }

    /// The frames that bring a mote from release `have`, of the packages `olds`, to this one, as release `number`.
    pub(crate) fn frames(
        &self,
        alloc: Global,
        have: u32,
        olds: &[Delivered],
        number: u32,
    ) -> Result<Vec<u8>, AllocError>
        ensures { IfOk result (λ v. v.items ≡ stream_of (update_frames have olds.now number self.now.packages)) }
    {
        releases_fit();
        let bytes = update(alloc, have, olds, number, self.drawn.packages())?;
        Ok(bytes)
    }
}
