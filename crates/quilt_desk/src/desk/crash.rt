ghost use Rattle.std.specs.Prelude.{◌≡◌, ◌≤◌, ◌⊎◌, length, take, IfOk, IfSome};
ghost use Rattle.quilt_world.specs.Disk.{CanLeave};
ghost use Rattle.quilt_world.specs.declared.disk.Door.TheVariants as doors;
ghost use Rattle.quilt_desk.specs.Crash.{IsLeftBy};

use super::Desk;
use crate::page_state::PageState;
use quilt_world::{Disk, Image};
use std::alloc::AllocError;

impl Desk {
    /// The image that a crash after the first so many events leaves. Each page that it leaves free has a byte of choice:
    /// 0 takes its bytes at the last sync, or zeros where it was torn then; 1 takes those of its last whole write since,
    /// or what 0 takes where there is none; any other byte fills the page. It reads the events once for each page.
    pub fn crash(&self, events: usize, choice: &[u8]) -> Result<Image, AllocError>
        requires open { (⟦<Desk as Disk>⟧.door self.now ≡ doors.Ready) ⊎ (⟦<Desk as Disk>⟧.door self.now ≡ doors.Made) }
        requires within { IfSome (⟦<Desk as Disk>⟧.told self.now) (λ t. events ≤ length t.log) }
        requires choices { length choice.now ≡ ⟦<Desk as Disk>⟧.size self.now }
        ensures left { IfOk result (λ m. IfSome (⟦<Desk as Disk>⟧.told self.now) (λ t. CanLeave t.start (take events t.log) m)) }
        ensures chosen { IfOk result (λ m. IfSome (⟦<Desk as Disk>⟧.told self.now) (λ t. IsLeftBy t.start (take events t.log) choice.now m)) }
    {
        let mut image = self.start.copy()?;
        for page in 0..self.start.pages() {
            let state = PageState::after(page, self.start.page(page), &self.log[..events]);
            image.set_page(page, &state.left(choice[page as usize]));
        }
        Ok(image)
    }
}
