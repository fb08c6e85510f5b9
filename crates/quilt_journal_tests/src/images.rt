use crate::calls::is_filled;
use crate::files::put_page;
use quilt_world::Image;
use std::alloc::AllocError;
use std::test::Fail;

/// Whether an image has three pages, of which the second is filled with this byte and the third with zeros.
fn is_written(image: &Image, second: u8) -> bool {
    image.pages() == 3 && is_filled(image, 1, second) && is_filled(image, 2, 0)
}

/// Whether a copy of an image is.
fn is_copied(image: &Image, second: u8) -> Result<bool, AllocError> {
    Ok(is_written(&image.copy()?, second))
}

#[test]
fn images_are_written_and_copied(rt: HostRuntime) -> Result<(), Fail> {
    let mut image = Image::new(rt.alloc(), 3)?;
    assert!(rt; is_written(&image, 0));
    put_page(&mut image, 1, &[7; 4096]);
    assert!(rt; is_copied(&image, 7)?);
    Ok(())
}
