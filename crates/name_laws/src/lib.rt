//! Laws about images by the names of symbols, and the images of the packages that objects are packed into.
//!
//! The laws speak of the definitions alone. Each function does nothing, and its contract is the law.
#![tactic(auto)]

ghost use Rattle.name_laws.specs.Laws.{NameImageIsImage, NameImageIsOne, PackageAsksItsNames};

/// The image of a set of objects by the names of their symbols is the image of their packages, whatever numbers the names have.
pub fn name_image_is_image()
    ensures { NameImageIsImage }
{}

/// A set of objects has one image by names at most.
pub fn name_image_is_one()
    ensures { NameImageIsOne }
{}

/// A package asks for the numbers of its object's own names alone.
pub fn package_asks_its_names()
    ensures { PackageAsksItsNames }
{}
