//! The image of a server that stays up, between its rounds.
ghost use Rattle.std.specs.Prelude.{◌≡◌, ◌≢◌, ◌↔◌, ◌<◌, ◌≤◌, IsOk, IsSome, IsTrue, OnErr, OnOk, false, length};
ghost use Rattle.dml_types.specs.Limits.{IsValid};
ghost use Rattle.dml_types.specs.Memory.{has_all, is_in_segments, put};
ghost use Rattle.dml_image.specs.Brought.{brought, has_page};

use crate::long::LongServerOver;
use dml_image::{Image, ImageError};
use dml_types::Settings;

impl<'a, G> LongServerOver<'a, G> {
    ghost use Rattle.dml_portal.specs.LongServers.{image_of, lanes_of, log_of, most_of, settings_of};

    /// The image, as the rounds so far, and what was written and brought between them, have left it.
    pub fn image(&self) -> &Image<'a>
        ensures { result.now ≡ image_of self.now }
    {
        self.engine.image()
    }

    /// The settings of its engine, which are valid.
    pub fn settings(&self) -> Settings
        ensures value { result ≡ settings_of self.now }
        ensures valid { IsValid result }
    {
        self.engine.settings()
    }

    /// Makes a page present with these bytes, between rounds; a page that is present is overwritten.
    ///
    /// # Errors
    /// `NoSuchPage` where the image has no page of this number, and `NoMemory` where there is no room for a page that
    /// was absent, which is always so of lent memory, also of a page that lies in none of its segments. Nothing is
    /// changed then.
    pub fn bring(&mut self, page: u32, bytes: &[u8; 4096]) -> Result<(), ImageError>
        ensures ok { OnOk result (image_of self.new ≡ brought (image_of self.old) page bytes.now) }
        ensures err { OnErr result (image_of self.new ≡ image_of self.old) }
        ensures no_such_page { (result ≡ Err ImageError.NoSuchPage) ↔ (length (image_of self.old).present ≤ page) }
        ensures never_bad_pages { result ≢ Err ImageError.BadPages }
        ensures again { IsTrue (has_page (image_of self.old) page) → IsOk result }
        ensures no_room { IsSome (image_of self.old).home → page < length (image_of self.old).present →
            has_page (image_of self.old) page ≡ false → result ≡ Err ImageError.NoMemory }
        ensures hole { IsTrue (is_in_segments (image_of self.old)) → page < length (image_of self.old).present
            → has_page (image_of self.old) page ≡ false → result ≡ Err ImageError.NoMemory }
        ensures settings { settings_of self.new ≡ settings_of self.old }
        ensures log { log_of self.new ≡ log_of self.old }
        ensures lanes { lanes_of self.new ≡ lanes_of self.old }
        ensures bound { most_of self.new ≡ most_of self.old }
    {
        self.engine.bring(page, bytes)
    }

    /// Writes bytes into the image, from an address on, between rounds.
    pub fn write(&mut self, addr: u64, bytes: &[u8])
        requires { IsTrue (has_all (image_of self.old) addr (length bytes.now)) }
        ensures image { image_of self.new ≡ put (image_of self.old) addr bytes.now }
        ensures settings { settings_of self.new ≡ settings_of self.old }
        ensures log { log_of self.new ≡ log_of self.old }
        ensures lanes { lanes_of self.new ≡ lanes_of self.old }
        ensures bound { most_of self.new ≡ most_of self.old }
    {
        self.engine.write(addr, bytes);
    }
}
