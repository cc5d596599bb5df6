//! The bytes of pages as programs leave them.

use crate::random::Random;
use dml_engine::Engine;
use dml_image::Image;
use std::alloc::Global;
use std::io;

/// A line of a text.
const TEXT: [u8; 32] = *b"the quick brown fox jumps over, ";

/// The bytes of a page: of four pages one has zeros alone, one text, one a few fields among zeros, and one any bytes.
pub(crate) fn content_of(random: &mut Random, page: u32) -> [u8; 4096] {
    let mut content = [0; 4096];
    match page % 4 {
        0 => {}
        1 => {
            for line in content.as_chunks_mut::<32>().0 {
                *line = TEXT;
                line[0] = b'a' + (random.word() % 26) as u8;
            }
        }
        2 => changed(random, &mut content, 40),
        _ => changed(random, &mut content, 1),
    }
    content
}

/// Changes the 8-byte words of a page, of so many about one.
pub(crate) fn changed(random: &mut Random, content: &mut [u8; 4096], apart: u32) {
    let gap = apart.clamp(1, 512) * 2 - 1;
    let mut words = content.as_chunks_mut::<8>().0.iter_mut();
    for _ in 0..512 {
        match words.nth(random.below(gap) as usize) {
            Some(word) => *word = random.word().to_le_bytes(),
            None => break,
        }
    }
}

/// An image of so many pages; of `absent` pages about one is absent, and of 0 none.
pub(crate) fn image_of(
    alloc: Global,
    random: &mut Random,
    pages: u32,
    absent: u32,
) -> io::Result<Image<'static>> {
    let Ok(mut image) = Image::new(alloc, pages) else {
        return Err(io::ErrorKind::OutOfMemory.into());
    };
    for page in 0..pages {
        if absent > 0 && random.one_in(absent) {
            continue;
        }
        if image.bring(page, &content_of(random, page)).is_err() {
            return Err(io::ErrorKind::OutOfMemory.into());
        }
    }
    Ok(image)
}

/// An engine over an image.
pub(crate) fn engine_of(
    alloc: Global,
    image: Image<'static>,
    chunk: u32,
    workers: u32,
) -> io::Result<Engine> {
    let settings = dml_types::Settings {
        staging: 8_388_608,
        chunk,
        workers,
    };
    match Engine::new(alloc, image, settings) {
        Ok(engine) => Ok(engine),
        Err(_) => Err(io::ErrorKind::OutOfMemory.into()),
    }
}

/// Writes over a page of an engine's image: about one of so many 8-byte words is another one then. An absent page stays
/// absent.
pub(crate) fn touched(
    engine: &mut Engine,
    random: &mut Random,
    page: u32,
    apart: u32,
) -> io::Result<()> {
    let addr = u64::from(page) * 4096;
    if !engine.image().has(addr) {
        return Ok(());
    }
    let mut content = [0; 4096];
    content.copy_from_slice(engine.image().part(addr, 4096));
    changed(random, &mut content, apart);
    match engine.bring(page, &content) {
        Ok(()) => Ok(()),
        Err(_) => Err(io::ErrorKind::OutOfMemory.into()),
    }
}
