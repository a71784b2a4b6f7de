// What a run says of its replies on standard error.

ghost use Rattle.std.specs.Prelude.{◌≡◌, IfSome, string_bytes};
ghost use Rattle.rsp_explain.specs.Places.{next_place, answered_at};
ghost use Rattle.rsp_explain.specs.Replies.{IsReplyExplained};
ghost use Rattle.rsp_cli.specs.Watching.{whole_text, reply_at_work, first_line};

use crate::explaining::Explainer;
use rsp_explain::{Head, Place, Places, explain_reply};
use rsp_script_io::{EndFault, Sink, Source};
use std::alloc::Global;
use std::cell::RefCell;
use std::io::Write;

/// The bytes of a script that were read so far.
#[derive(Drop)]
pub(crate) struct Heard {
    bytes: Vec<u8>,
    /// Whether there was memory for all of them.
    is_whole: bool,
}

impl Heard {
    /// None so far.
    pub(crate) fn new(alloc: Global) -> Heard {
        Heard {
            bytes: Vec::new(alloc),
            is_whole: true,
        }
    }

    fn hear(&mut self, bytes: &[u8]) {
        self.is_whole = self.is_whole && self.bytes.extend_from_slice(bytes).is_ok();
    }
}

/// A source that passes on what another one gives, and keeps it.
#[derive(Drop)]
pub(crate) struct Listener<'a, R> {
    source: R,
    heard: &'a RefCell<Heard>,
}

impl<'a, R> Listener<'a, R> {
    /// A source of what this source gives.
    pub(crate) fn new(source: R, heard: &'a RefCell<Heard>) -> Listener<'a, R>
        ensures { result.source ≡ source }
    {
        Listener { source, heard }
    }

    /// The other source.
    pub(crate) fn into_source(self) -> R
        ensures { result ≡ self.entry.source }
    {
        self.source
    }
}

impl<R: Source> Source for Listener<'_, R> {
    /// The bytes that the other source has left.
    ghost rest = { λ s. R.rest s.source };

    /// How many of its reads failed.
    ghost fault_count = { λ s. R.fault_count s.source };

    fn read(&mut self, buf: &mut [u8]) -> Result<usize, EndFault> {
        let count = self.source.read(buf)?;
        if let Ok(mut heard) = self.heard.try_borrow_mut() {
            heard.hear(&buf[..count]);
        }
        Ok(count)
    }

    fn failures(&self) -> u64 {
        self.source.failures()
    }
}

/// The bytes of the script whose replies are watched.
#[derive(Clone, Copy)]
pub(crate) enum Text<'a> {
    /// All of them.
    Whole(&'a [u8]),
    /// Those that were read so far.
    Heard(&'a RefCell<Heard>),
}

/// The most bytes of a reply that are kept. No fault has more.
const LONGEST: usize = 64;

/// The replies to a script as they are written: which line each answers, and what is said of those that are faults.
#[derive(Drop)]
pub(crate) struct Watch<'t, 'n, E> {
    alloc: Global,
    text: Text<'t>,
    places: Places,
    /// How the reply at work begins.
    reply: [u8; LONGEST],
    length: usize,
    /// How many of its bytes are still to be taken.
    left: usize,
    /// The line of the first fault, if it is known.
    first: Option<usize>,
    /// How a line is named.
    head: Head<'n>,
    /// What explains the faults, if something does.
    explainer: Option<Explainer<E>>,
    /// How many replies were to be explained.
    count: u64,
}

impl<'t, 'n, E: Write> Watch<'t, 'n, E> {
    /// Before the first reply.
    pub(crate) fn new(
        alloc: Global,
        text: Text<'t>,
        head: Head<'n>,
        explainer: Option<Explainer<E>>,
    ) -> Watch<'t, 'n, E> {
        Watch {
            alloc,
            text,
            places: Places::new(),
            reply: [0; LONGEST],
            length: 0,
            left: 0,
            first: None,
            head,
            explainer,
            count: 0,
        }
    }

    /// The line of the first fault, if it is known.
    pub(crate) fn first(&self) -> Option<usize>
        ensures { result ≡ self.now.first }
    {
        self.first
    }

    /// How the reply at work begins.
    fn reply(&self) -> &[u8]
        ensures { result.now ≡ reply_at_work self.now }
    {
        &self.reply[..self.length.min(LONGEST)]
    }

    /// Takes note of a write, of which so many bytes were taken. The first write of a reply offers the whole of it. Whether the reply is
    /// now written.
    fn note(&mut self, bytes: &[u8], taken: usize) -> bool {
        if self.left == 0 {
            let length = bytes.len().min(LONGEST);
            self.reply[..length].copy_from_slice(&bytes[..length]);
            self.length = length;
            self.left = bytes.len();
        }
        self.left -= taken.min(self.left);
        self.left == 0
    }

    /// Takes note of what a reply answers that is written, and explains a fault.
    fn settle(&mut self)
        ensures { IfSome (whole_text self.old.text) (λ script.
            self.new.first ≡ first_line self.old.first (next_place script self.old.places).place (reply_at_work self.old)) }
    {
        match self.text {
            Text::Whole(script) => self.place(script),
            Text::Heard(cell) => {
                if let Ok(heard) = cell.try_borrow() {
                    if heard.is_whole {
                        self.place(heard.bytes.as_slice());
                    }
                }
            }
        }
    }

    /// The same, of a script that was read so far.
    fn place(&mut self, script: &[u8])
        ensures { self.new.first ≡ first_line self.old.first (next_place script.now self.old.places).place (reply_at_work self.old) }
    {
        let Some(place) = self.places.next(script) else {
            return;
        };
        if !self.reply().starts_with(b"fault ") {
            return;
        }
        if self.first.is_none() {
            self.first = Some(place.line(self.reply()));
        }
        self.explain(place);
    }

    /// Explains a fault, if that is asked for.
    fn explain(&mut self, place: Place<'_>)
        ensures { self.new.first ≡ self.old.first }
    {
        let style = match &self.explainer {
            Some(explainer) => explainer.style,
            None => return,
        };
        self.count = self.count.saturating_add(1);
        if style.more(self.count) > 0 {
            return;
        }
        let Some(said) = self.explanation(place) else {
            return;
        };
        if let Some(explainer) = &mut self.explainer {
            explainer.show(place, said.as_str());
        }
    }

    /// What explains the reply at work, which answers this place; None if there is no memory for it.
    fn explanation(&self, place: Place<'_>) -> Option<String>
        ensures { IfSome result (λ said. IsReplyExplained self.now.head (answered_at place.entry) (reply_at_work self.now) (string_bytes said)) }
    {
        explain_reply(self.alloc, self.head, place, self.reply()).ok()
    }

    /// Says how many replies aren't explained.
    fn end(&mut self) {
        if let Some(explainer) = &mut self.explainer {
            explainer.end(self.count);
        }
    }
}

/// A sink that passes replies on to another one, and watches them.
#[derive(Drop)]
pub(crate) struct Watcher<'t, 'n, W, E> {
    sink: W,
    watch: Watch<'t, 'n, E>,
}

impl<'t, 'n, W: Sink, E: Write> Watcher<'t, 'n, W, E> {
    /// A sink before its first reply.
    pub(crate) fn new(sink: W, watch: Watch<'t, 'n, E>) -> Watcher<'t, 'n, W, E>
        ensures { result.sink ≡ sink }
    {
        Watcher { sink, watch }
    }

    /// The line of the first fault, if it is known.
    pub(crate) fn first(&self) -> Option<usize>
        ensures { result ≡ self.now.watch.first }
    {
        self.watch.first()
    }

    /// Says how many replies aren't explained, after the last one.
    pub(crate) fn end(&mut self)
        ensures { self.new.sink ≡ self.old.sink }
    {
        self.watch.end();
    }
}

impl<W, E: Drop> Watcher<'_, '_, W, E> {
    /// The other sink, when all is written.
    pub(crate) fn into_sink(self) -> W
        ensures { result ≡ self.entry.sink }
    {
        self.sink
    }
}

impl<W: Sink, E: Write> Sink for Watcher<'_, '_, W, E> {
    /// The bytes that the other sink has taken.
    ghost written = { λ s. W.written s.sink };

    /// How many of its writes failed.
    ghost fault_count = { λ s. W.fault_count s.sink };

    /// Passes the bytes on in one write. A fault is explained when its reply is written.
    fn write(&mut self, piece: &[u8]) -> Result<usize, EndFault> {
        let taken = self.sink.write(piece)?;
        if self.watch.note(piece, taken) {
            self.watch.settle();
        }
        Ok(taken)
    }

    fn failures(&self) -> u64 {
        self.sink.failures()
    }
}
