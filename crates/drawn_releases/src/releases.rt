//! Drawn releases, one after another.

ghost use Rattle.std.specs.Prelude.{◌≡◌, ◌+◌, ◌==◌, ◌<◌, ◌≤◌, ◌++◌, take, drop, OnOk, IfOk, length, Option, [], ◌∷◌, if◌then◌else◌};
ghost use Rattle.std.specs.List.{position};

use crate::components::{Delivered, make};
use crate::random::Random;
use component_package::NoMemory;
use std::alloc::{AllocError, Global};
use std::marker::Model;

/// A drawn release: its packages in their order, and the power cut while it is installed.
#[derive(Debug, Drop)]
pub struct Drawn {
    packages: Vec<Delivered>,
    stop: u16,
    fill: u8,
    random: Random,
}

impl Model for Drawn {
    ghost use Rattle.drawn_releases.specs.Generator.{Drawn};

    ghost Value = { Drawn };

    ghost view = { λ d. record { packages = d.packages.items; stop = d.stop; fill = d.fill; state = d.random } };
}

// The place of a component among packages.
fn place_of(packages: &[Delivered], component: u16) -> Option<usize>
    ensures { result ≡ position (λ o. o.component == component) packages.now }
{
    packages.iter().position(|o| o.component == component)
}

fn append(packages: &mut Vec<Delivered>, made: Delivered) -> Result<(), AllocError>
    ensures { OnOk result (packages.new.items ≡ packages.old.items ++ made ∷ []) }
{
    packages.push(made)?;
    Ok(())
}

// Turns packages to the left by so many places.
fn turn(packages: &mut Vec<Delivered>, places: usize)
    ensures { packages.new.items ≡ drop places packages.old.items ++ take places packages.old.items }
{
    if places < packages.len() {
        packages.rotate_left(places);
    }
}

impl Drawn {
    ghost use Rattle.drawn_releases.specs.Generator.{begun, with_one, with_more, remade, remade_at, remade_one, changed, turned, later, next_packages, with_cut, next_release};

    /// What a number begins with: no package.
    pub fn begin(alloc: Global, number: u32) -> Drawn
        ensures { result ≡ begun number }
    {
        Drawn {
            packages: Vec::new(alloc),
            stop: 0,
            fill: 0,
            random: Random::new(number),
        }
    }

    /// The packages of the release, in the order in which they are linked.
    pub fn packages(&self) -> &[Delivered]
        ensures { result.now ≡ self.now.packages }
    {
        &self.packages
    }

    /// The number of the program, from 1, in which power is cut while the release is installed.
    pub fn stop(&self) -> u16
        ensures { result ≡ self.now.stop }
    {
        self.stop
    }

    /// What each byte of the page of that program then holds.
    pub fn fill(&self) -> u8
        ensures { result ≡ self.now.fill }
    {
        self.fill
    }

    // Makes one component more.
    fn make_one(&mut self, alloc: Global, component: u16) -> Result<(), NoMemory>
        requires some { 1 ≤ component }
        requires known { component ≤ 12 }
        ensures { OnOk result (self.new ≡ with_one component self.old) }
    {
        let made = make(alloc, &mut self.random, component, 1)?;
        append(&mut self.packages, made)?;
        Ok(())
    }

    // Makes twelve components.
    fn make_all(&mut self, alloc: Global) -> Result<(), NoMemory>
        ensures { OnOk result (self.new ≡ with_more 12 1 self.old) }
    {
        for component in 1..13 {
            self.make_one(alloc, component)?;
        }
        Ok(())
    }

    // Makes the component at a place anew.
    fn remake_at(&mut self, alloc: Global, component: u16, place: usize) -> Result<(), NoMemory>
        requires some { 1 ≤ component }
        requires known { component ≤ 12 }
        requires within { place < length self.old.packages }
        ensures { OnOk result (self.new ≡ remade_at component self.old (Some place)) }
    {
        let version = self.packages[place].version.wrapping_add(1);
        let made = make(alloc, &mut self.random, component, version)?;
        self.packages[place] = made;
        Ok(())
    }

    // Makes a component anew, at its place.
    fn remake(&mut self, alloc: Global, component: u16) -> Result<(), NoMemory>
        requires some { 1 ≤ component }
        requires known { component ≤ 12 }
        ensures { OnOk result (self.new ≡ remade component self.old) }
    {
        let Some(place) = place_of(&self.packages, component) else {
            return Ok(());
        };
        self.remake_at(alloc, component, place)
    }

    // Makes a drawn component anew.
    fn change_one(&mut self, alloc: Global) -> Result<(), NoMemory>
        ensures { OnOk result (self.new ≡ remade_one self.old) }
    {
        let component = 1 + self.random.draw(12) as u16;
        self.remake(alloc, component)?;
        Ok(())
    }

    // Makes so many drawn components anew.
    fn change(&mut self, alloc: Global, count: u32) -> Result<(), NoMemory>
        ensures { OnOk result (self.new ≡ changed count self.old) }
    {
        for _ in 0..count {
            self.change_one(alloc)?;
        }
        Ok(())
    }

    // Changes components of the former release, and turns their order.
    fn make_later(&mut self, alloc: Global) -> Result<(), NoMemory>
        ensures { OnOk result (self.new ≡ later self.old) }
    {
        let count = 1 + self.random.draw(3);
        self.change(alloc, count)?;
        let places = self.random.draw(12) as usize;
        turn(&mut self.packages, places);
        Ok(())
    }

    // Draws the packages of the next release.
    fn make_next(&mut self, alloc: Global) -> Result<(), NoMemory>
        ensures { OnOk result (self.new ≡ next_packages self.old) }
    {
        if self.packages.is_empty() {
            self.make_all(alloc)?;
            return Ok(());
        }
        self.make_later(alloc)?;
        Ok(())
    }

    // Draws the cut.
    fn draw_cut(&mut self)
        ensures { self.new ≡ with_cut self.old }
    {
        self.stop = 1 + self.random.draw(400) as u16;
        self.fill = self.random.draw(256) as u8;
    }

    /// Goes on to the next release. `NoMemory` is the one answer but Ok.
    pub fn advance(&mut self, alloc: Global) -> Result<(), NoMemory>
        ensures { OnOk result (self.new ≡ next_release self.old) }
    {
        self.make_next(alloc)?;
        self.draw_cut();
        Ok(())
    }
}
