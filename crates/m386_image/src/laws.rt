//! What is proved of the image file beside the calls' own clauses.
ghost use Rattle.std.specs.Prelude.{◌≡◌, ◌⊎◌, Ok, Err};
ghost use Rattle.m386_image.specs.Format.{IsValid};
ghost use Rattle.m386_image.specs.Laws.{IsOneImage, IsNoImage};
ghost use Rattle.m386_image.specs.declared.fault.ReadStop.TheVariants.{Memory};

use crate::fault::ReadStop;
use crate::image::Image;
use crate::reading::{check_image, read_image};
use crate::writing::write_image;
use std::alloc::Global;

/// A law: bytes are one image where no fault stands, and none where one stands.
pub fn one_image(bytes: &[u8])
    ensures one { IsOneImage bytes.now }
    ensures none { IsNoImage bytes.now }
{
    let _checked = check_image(bytes);
}

/// A law: what is written for an image is read as that image, unless memory runs out.
pub fn read_back(alloc: Global, image: &Image) -> Result<Image, ReadStop>
    requires { IsValid image.now }
    ensures { (result ≡ Ok image.now) ⊎ (result ≡ Err Memory) }
{
    let bytes = write_image(alloc, image)?;
    read_image(alloc, &bytes)
}
