ghost use Rattle.std.specs.Prelude.{◌≡◌, length, true, IsTrue};
ghost use Rattle.std.specs.List.{list_all};
ghost use Rattle.quilt_desk.specs.Crash.{page_filled};
ghost use Rattle.quilt_desk.specs.PageStates.{first_page_state, page_state_after, state_of, left_of, chosen_of};
ghost use Rattle.quilt_desk.specs.Whole.{is_whole_page};

use quilt_world::Event;

/// What is known of a page after some events: its last bytes, if it is not torn, its bytes at the last sync, if it was
/// not torn then, the last whole write since, and whether a write was tried since.
#[derive(Drop)]
pub(crate) struct PageState {
    last: Option<[u8; 4096]>,
    synced: Option<[u8; 4096]>,
    written: Option<[u8; 4096]>,
    is_unsynced: bool,
}

impl PageState {
    /// A page that has these bytes before any event.
    pub(crate) fn new(bytes: &[u8; 4096]) -> PageState
        ensures { result ≡ first_page_state bytes.now }
    {
        PageState {
            last: Some(*bytes),
            synced: Some(*bytes),
            written: None,
            is_unsynced: false,
        }
    }

    /// The page of this number after these events, where it had these bytes before.
    pub(crate) fn after(page: u32, bytes: &[u8; 4096], log: &[Event]) -> PageState
        requires { IsTrue (list_all is_whole_page log.now) }
        ensures { result ≡ state_of page bytes.now log.now }
    {
        let mut state = PageState::new(bytes);
        for event in log {
            state.add(page, event);
        }
        state
    }

    /// Adds an event.
    fn add(&mut self, page: u32, event: &Event)
        requires { IsTrue (is_whole_page event.now) }
        ensures { self.new ≡ page_state_after page self.old event.now }
    {
        match event {
            Event::Wrote { page: at, bytes } if *at == page => {
                let bytes = page_of(bytes.bytes());
                self.last = Some(bytes);
                self.written = Some(bytes);
                self.is_unsynced = true;
            }
            Event::Tore { page: at } if *at == page => {
                self.last = None;
                self.is_unsynced = true;
            }
            Event::Synced => {
                self.synced = self.last;
                self.written = None;
                self.is_unsynced = false;
            }
            Event::Wrote { .. } | Event::Tore { .. } | Event::Took(_) | Event::Put(_) => {}
        }
    }

    /// The bytes that a crash leaves of the page: its last ones, or what the choice says where it is free.
    pub(crate) fn left(&self, choice: u8) -> [u8; 4096]
        ensures { result ≡ left_of self.now choice }
    {
        match self.last {
            Some(bytes) if !self.is_unsynced => bytes,
            _ => self.chosen(choice),
        }
    }

    /// What the choice says of a free page.
    fn chosen(&self, choice: u8) -> [u8; 4096]
        ensures { result ≡ chosen_of self.now choice }
    {
        let synced = self.synced.unwrap_or(filled(0));
        match choice {
            0 => synced,
            1 => self.written.unwrap_or(synced),
            byte => filled(byte),
        }
    }
}

/// A page of this byte.
fn filled(byte: u8) -> [u8; 4096]
    ensures { result ≡ page_filled byte }
{
    [byte; 4096]
}

/// The bytes as a page.
fn page_of(bytes: &[u8]) -> [u8; 4096]
    requires { length bytes.now ≡ 4096 }
    ensures { result ≡ bytes.now }
{
    let mut page = [0; 4096];
    page.copy_from_slice(bytes);
    page
}
