//! The observer that explains refused lines to a person, and what happens to changes that are not
//! saved.
ghost use Rattle.std.specs.Prelude.{◌≡◌, ◌≢◌, ◌⊎◌, ℕ, List, [], Some, None, IfSome, option_copied, if◌then◌else◌, ◌++◌, ◌&&◌, ◌||◌, ◌-◌, codes, length, not, take, false, true};
ghost use Rattle.host_storage.specs.Files.{HostState};
ghost use Rattle.script_text.specs.HeldLine.{HoldsText};
ghost use Rattle.host_storage.specs.Output.{Writes};
ghost use Rattle.program_console.specs.Outside.{account_at};
ghost use Rattle.script_text.specs.RawLines.{line_limit};
ghost use Rattle.script_lines.specs.Status.{is_accepted};
ghost use Rattle.d64_history.specs.History.{present_image};
ghost use Rattle.std.specs.Option.{option_map_or};
ghost use Rattle.script_hints.specs.LineStart.{line_start, shown_raw_line};
ghost use Rattle.script_hints.specs.Observed.{Explains, Remarks, WritesEach, asks_for_help, is_explained, is_remarked, lines_if, named_changes, one_more_line, shown_raw_text, stops_at_refusal};
ghost use Rattle.script_hints.specs.Kept.{MayBeDefault, effect_of, is_unsaved, kept_after, kept_in, unsaved_line};
ghost use Rattle.script_hints.specs.Leaving.{IsKeptUnder};
ghost use Rattle.script_hints.specs.Past.{IsPastAfter, change_line, command_of, known_line, makes_change};
ghost use Rattle.script_hints.specs.Commands.{command_rows};
ghost use Rattle.script_hints.specs.Prompt.{name_in_prompt, prompt};
ghost use Rattle.script_hints.specs.Unfit.{IsUnfitLine, fetched_by};
ghost use Rattle.script_lines.specs.declared.line_command.LineCommand.TheVariants.{Quit, Redo, Undo};
ghost use Rattle.script_advice.specs.LineParts.{parts_of_line};
ghost use Rattle.script_advice.specs.Found.{file_count};
ghost use Rattle.script_advice.specs.Refusal.{MaySay};

use crate::help::write_rows;
use crate::kept::{Kept, is_unsaved, kept_after};
use crate::leaving::keep_session;
use crate::line_start::line_start;
use crate::past::Past;
use crate::prompt::{prompt_name, write_prompt};
use crate::unfit::unfit_line;
use arrayvec::ArrayVec;
use d64_image::Image;
use d64_undo::Session;
use host_storage::{Host, HostFault, OutputStream, WriteFault};
use script_advice::{LineParts, default_name, file_count, remark, write_refusal};
use script_commands::{Observer, Opening, Refusals};
use script_lines::{LineCommand, Status};
use script_text::held_line::HeldLine;
use script_text::raw_lines::LINE_BYTES;
use std::alloc::Global;
use std::io::Write;

/// The line that says that no file has the last image.
const UNSAVED: &[u8] = b"d64sh: changes are not saved\n";

/// Explains each refused line on an output: with the number of the line if the script is an
/// argument or ends at refusals, and otherwise if lines are typed at a terminal. There it also
/// writes the prompt, and says what nothing else shows: the commands, which line was undone, and
/// what happens to changes that are not saved.
#[derive(Drop)]
pub struct Advisor<'w, W: Write, H: Host> {
    alloc: Global,
    output: OutputStream<'w, W>,
    /// The host on which a session is kept that is left with changes.
    host: H,
    /// Whether the input and the output are a terminal.
    is_terminal: bool,
    /// Whether it explains there why no session begins.
    is_shown: bool,
    /// The line with that explanation.
    unfit: Option<Vec<u8>>,
    /// Whether lines are typed there.
    is_typed: bool,
    /// Whether refused lines are named by their numbers.
    is_numbered: bool,
    /// How many lines of the script were read.
    lines: usize,
    /// The first bytes of the line that is being read, if lines are named by their numbers.
    first_bytes: ArrayVec<u8, LINE_BYTES>,
    /// Whether the prompt was written last.
    is_prompting: bool,
    /// Whether the session was left by `quit`, or by the script's end.
    is_left: bool,
    /// The name in the prompt.
    name: Option<Vec<u8>>,
    kept: Option<Kept>,
    /// How many files the disk lists.
    files: usize,
    /// How many changes are made.
    done: usize,
    past: Past,
}

impl<'w, W: Write, H: Host> Advisor<'w, W, H> {
    /// An observer on this writer, which may be a terminal at which lines are typed.
    pub fn new(alloc: Global, is_terminal: bool, writer: &'w mut W, host: H) -> Advisor<'w, W, H>
        ensures lent { result.output.writer.ghost_name ≡ writer.entry.ghost_name }
        ensures same { result.output.writer.now ≡ writer.old }
        ensures terminal { result.is_terminal ≡ is_terminal }
        ensures unread { (result.lines ≡ 0) × (result.first_bytes.items ≡ []) }
        ensures unasked { (result.is_shown ≡ false) × (result.unfit ≡ None) × (result.is_prompting ≡ false) }
        ensures unleft { result.is_left ≡ false }
    {
        Advisor {
            alloc,
            output: OutputStream::new(writer),
            host,
            is_terminal,
            is_shown: false,
            unfit: None,
            is_typed: false,
            is_numbered: false,
            lines: 0,
            first_bytes: ArrayVec::new(),
            is_prompting: false,
            is_left: false,
            name: None,
            kept: None,
            files: 0,
            done: 0,
            past: Past::new(alloc),
        }
    }

    /// Lets it explain why no session begins, if none does.
    pub fn explain_misses(&mut self)
        ensures { self.new ≡ record self.old { is_shown = true } }
    {
        self.is_shown = true;
    }

    /// Notes why no session begins with the file of this name, if that is to be explained: it has
    /// these bytes, or it can't be read.
    pub fn note_miss(&mut self, name: &str, contents: Result<&[u8], HostFault>)
        ensures others { self.new ≡ record self.old { unfit = self.new.unfit } }
        ensures noted { self.old.is_shown ≡ true → IfSome self.new.unfit (λ line. IsUnfitLine (H.state self.old.host).files name.now (fetched_by (λ bytes. bytes.now) contents.entry) line.items) }
        ensures unnoted { self.old.is_shown ≡ false → self.new.unfit ≡ self.old.unfit }
    {
        if self.is_shown {
            self.unfit = unfit_line(self.alloc, &self.host, name, contents);
        }
    }

    /// Says why no session began, if that is known.
    pub fn end_without_session(&mut self)
        ensures lent { self.new.output.writer.ghost_name ≡ self.old.output.writer.ghost_name }
        ensures advised { Writes (account_at W.contents self.old.output) (account_at W.contents self.new.output) (option_map_or (λ line. line.items) self.old.unfit []) }
    {
        let _ = self.output.write(bytes_of(&self.unfit, b""));
    }

    /// Notes that the session begins, and says nothing about it.
    pub fn begin_with(&mut self, opening: &Opening<'_>, session: &Session)
        ensures others { self.new ≡ record self.old { is_typed = self.new.is_typed; is_numbered = self.new.is_numbered; kept = self.new.kept; name = self.new.name; files = self.new.files; done = self.new.done } }
        ensures typed { self.new.is_typed ≡ (self.old.is_terminal && not opening.now.is_given) }
        ensures numbered { self.new.is_numbered ≡ (opening.now.is_given || stops_at_refusal opening.now.refusals) }
        ensures kept { self.new.is_typed ≡ true → self.new.kept ≡ Some (kept_in (present_image session.now) (option_copied opening.now.held_in)) }
        ensures name { self.new.is_typed ≡ true → IfSome self.new.name (λ name. name.items ≡ name_in_prompt (option_copied opening.now.home)) }
        ensures counted { self.new.is_typed ≡ true → (self.new.files ≡ file_count (present_image session.now)) × (self.new.done ≡ session.now.cursor) }
        ensures untyped { self.new.is_typed ≡ false → self.new ≡ record self.old { is_typed = false; is_numbered = self.new.is_numbered } }
    {
        self.is_typed = self.is_terminal && !opening.is_given;
        self.is_numbered = opening.is_given || matches!(opening.refusals, Refusals::Stop);
        if self.is_typed {
            self.kept = Some(Kept::of(session.image(), opening.held_in.map(str::as_bytes)));
            self.name = prompt_name(self.alloc, opening.home).ok();
            self.files = file_count(session.image());
            self.done = session.done();
        }
    }

    /// Asks for the next line if lines are typed, with this as the present image.
    pub fn ask_with(&mut self, image: &Image)
        ensures lent { self.new.output.writer.ghost_name ≡ self.old.output.writer.ghost_name }
        ensures asked { WritesEach (account_at W.contents self.old.output) (account_at W.contents self.new.output)
            (lines_if self.old.is_typed (prompt (option_map_or (λ name. name.items) self.old.name (codes "d64sh")) (is_unsaved self.old.kept image.now))) }
        ensures others { self.new ≡ record self.old { output = self.new.output; is_prompting = self.old.is_typed || self.old.is_prompting } }
    {
        if !self.is_typed {
            return;
        }
        let is_unsaved = is_unsaved(self.kept, image);
        let _ = write_prompt(&mut self.output, bytes_of(&self.name, b"d64sh"), is_unsaved);
        self.is_prompting = true;
    }

    /// Observes a line that was read, and that has run and left this session: says why it was refused,
    /// and at a terminal what else there is to say of it.
    pub fn observe_with(
        &mut self,
        home: Option<&str>,
        line: &HeldLine,
        status: &Status,
        session: &Session,
    )
        ensures lent { self.new.output.writer.ghost_name ≡ self.old.output.writer.ghost_name }
        ensures said { (raw : List ℕ) → HoldsText line.now raw → (refusal remark : List (List ℕ))
            × Explains (is_explained self.old.is_numbered self.old.is_typed raw status.now) (H.state self.old.host) self.old.is_numbered (one_more_line self.old.lines) self.old.first_bytes.items raw status.now (present_image session.now) refusal
            × Remarks (is_remarked self.old.is_numbered self.old.is_typed status.now) raw status.now (present_image session.now) self.old.files remark
            × WritesEach (account_at W.contents self.old.output) (account_at W.contents self.new.output)
            (refusal ++ (lines_if (self.old.is_typed && asks_for_help raw status.now) command_rows ++ (remark
            ++ named_changes (self.old.is_typed && is_accepted status.now) (command_of raw) (known_line self.old.past session.now.cursor) (known_line self.old.past self.old.done)))) }
        ensures files_kept { (H.state self.new.host).files ≡ (H.state self.old.host).files }
        ensures read { (self.new.lines ≡ one_more_line self.old.lines) × (self.new.is_prompting ≡ false) × (self.new.first_bytes.items ≡ []) }
        ensures others { self.new ≡ record self.old { output = self.new.output; host = self.new.host; lines = self.new.lines; first_bytes = self.new.first_bytes; is_prompting = self.new.is_prompting; is_left = self.new.is_left; kept = self.new.kept; files = self.new.files; done = self.new.done; past = self.new.past } }
        ensures kept { (raw : List ℕ) → HoldsText line.now raw → (self.old.is_typed && is_accepted status.now) ≡ true
            → (found : List ℕ) × MayBeDefault (present_image session.now) (parts_of_line raw).first found × (self.new.kept ≡ kept_after self.old.kept (effect_of (option_copied home.entry) found (parts_of_line raw)) (present_image session.now)) }
        ensures held { (self.old.is_typed && is_accepted status.now) ≡ false → (self.new.kept ≡ self.old.kept) × (self.new.done ≡ self.old.done) × (self.new.is_left ≡ self.old.is_left) }
        ensures files { self.new.files ≡ (if is_remarked self.old.is_numbered self.old.is_typed status.now then file_count (present_image session.now) else self.old.files) }
        ensures done { (self.old.is_typed && is_accepted status.now) ≡ true → self.new.done ≡ session.now.cursor }
        ensures past { (raw : List ℕ) → HoldsText line.now raw → IsPastAfter ((self.old.is_typed && is_accepted status.now) && makes_change (command_of raw) self.old.done session.now.cursor)
            self.old.done (shown_raw_line (shown_raw_text raw [])) self.old.past self.new.past }
        ensures left { (raw : List ℕ) → HoldsText line.now raw → (self.old.is_typed && is_accepted status.now) ≡ true → command_of raw ≡ Some Quit → self.new.is_left ≡ true }
        ensures stays { (raw : List ℕ) → HoldsText line.now raw → command_of raw ≢ Some Quit → self.new.is_left ≡ self.old.is_left }
    {
        self.explain_refusal(line, status, session.image());
        self.list_commands(line, status);
        self.remark_on(line, status, session.image());
        self.follow(home, line, status, session);
        self.pass_line();
    }

    /// Says why a line was refused, if such lines are named by their numbers or it was typed. If it
    /// asks there which commands there are, that is no fault.
    fn explain_refusal(&mut self, line: &HeldLine, status: &Status, image: &Image)
        ensures lent { self.new.output.writer.ghost_name ≡ self.old.output.writer.ghost_name }
        ensures others { self.new ≡ record self.old { output = self.new.output; host = self.new.host } }
        ensures files_kept { (H.state self.new.host).files ≡ (H.state self.old.host).files }
        ensures explained { (raw : List ℕ) → HoldsText line.now raw → (texts : List (List ℕ))
            × Explains (is_explained self.old.is_numbered self.old.is_typed raw status.now) (H.state self.old.host) self.old.is_numbered (one_more_line self.old.lines) self.old.first_bytes.items raw status.now image.now texts
            × WritesEach (account_at W.contents self.old.output) (account_at W.contents self.new.output) texts }
    {
        if !self.is_explained(line, status) {
            return;
        }
        let parts = LineParts::of(line);
        let start = self.start_of(line);
        let start = bytes_of(&start, b"d64sh: ");
        let _ = write_refusal(
            self.alloc,
            &mut self.host,
            &mut self.output,
            start,
            &parts,
            status,
            image,
        );
    }

    /// Whether it says why a line was refused.
    fn is_explained(&self, line: &HeldLine, status: &Status) -> bool
        ensures { (raw : List ℕ) → HoldsText line.now raw → result ≡ is_explained self.now.is_numbered self.now.is_typed raw status.now }
    {
        !status.is_accepted() && (self.is_numbered || self.is_typed && !asks_for_help(line, status))
    }

    /// Lists the commands, if a line asks for them that was typed.
    fn list_commands(&mut self, line: &HeldLine, status: &Status)
        ensures lent { self.new.output.writer.ghost_name ≡ self.old.output.writer.ghost_name }
        ensures others { self.new ≡ record self.old { output = self.new.output } }
        ensures listed { (raw : List ℕ) → HoldsText line.now raw
            → WritesEach (account_at W.contents self.old.output) (account_at W.contents self.new.output) (lines_if (self.old.is_typed && asks_for_help raw status.now) command_rows) }
    {
        if self.is_asked(line, status) {
            let _ = write_rows(&mut self.output);
        }
    }

    /// Whether a line was typed that asks which commands there are.
    fn is_asked(&self, line: &HeldLine, status: &Status) -> bool
        ensures { (raw : List ℕ) → HoldsText line.now raw → result ≡ (self.now.is_typed && asks_for_help raw status.now) }
    {
        self.is_typed && asks_for_help(line, status)
    }

    /// Says what else there is to say about a line that was typed and left this image, if there is
    /// memory; of a refused one only if the script goes on.
    fn remark_on(&mut self, line: &HeldLine, status: &Status, image: &Image)
        ensures lent { self.new.output.writer.ghost_name ≡ self.old.output.writer.ghost_name }
        ensures others { self.new ≡ record self.old { output = self.new.output; files = self.new.files } }
        ensures remarked { (raw : List ℕ) → HoldsText line.now raw → (texts : List (List ℕ))
            × Remarks (is_remarked self.old.is_numbered self.old.is_typed status.now) raw status.now image.now self.old.files texts
            × WritesEach (account_at W.contents self.old.output) (account_at W.contents self.new.output) texts }
        ensures files { self.new.files ≡ (if is_remarked self.old.is_numbered self.old.is_typed status.now then file_count image.now else self.old.files) }
    {
        if !self.is_remarked(status) {
            return;
        }
        let text = text_of(line, b"");
        let parts = LineParts::of(line);
        let nothing = Vec::new(self.alloc);
        let said = remark(self.alloc, text, &parts, status, image, self.files).unwrap_or(nothing);
        let _ = self.output.write(said.as_slice());
        self.files = file_count(image);
    }

    /// Whether it says more of a line of this status, if there is more to say.
    fn is_remarked(&self, status: &Status) -> bool
        ensures { result ≡ is_remarked self.now.is_numbered self.now.is_typed status.now }
    {
        self.is_typed && (status.is_accepted() || !self.is_numbered)
    }

    /// Follows the session along a line that was typed and accepted.
    fn follow(&mut self, home: Option<&str>, line: &HeldLine, status: &Status, session: &Session)
        ensures lent { self.new.output.writer.ghost_name ≡ self.old.output.writer.ghost_name }
        ensures others { self.new ≡ record self.old { output = self.new.output; kept = self.new.kept; done = self.new.done; past = self.new.past; is_left = self.new.is_left } }
        ensures silent { (self.old.is_typed && is_accepted status.now) ≡ false → self.new ≡ self.old }
        ensures kept { (raw : List ℕ) → HoldsText line.now raw → (self.old.is_typed && is_accepted status.now) ≡ true
            → (found : List ℕ) × MayBeDefault (present_image session.now) (parts_of_line raw).first found × (self.new.kept ≡ kept_after self.old.kept (effect_of (option_copied home.entry) found (parts_of_line raw)) (present_image session.now)) }
        ensures done { (self.old.is_typed && is_accepted status.now) ≡ true → self.new.done ≡ session.now.cursor }
        ensures named { (raw : List ℕ) → HoldsText line.now raw → WritesEach (account_at W.contents self.old.output) (account_at W.contents self.new.output)
            (named_changes (self.old.is_typed && is_accepted status.now) (command_of raw) (known_line self.old.past session.now.cursor) (known_line self.old.past self.old.done)) }
        ensures past { (raw : List ℕ) → HoldsText line.now raw → IsPastAfter ((self.old.is_typed && is_accepted status.now) && makes_change (command_of raw) self.old.done session.now.cursor)
            self.old.done (shown_raw_line (shown_raw_text raw [])) self.old.past self.new.past }
        ensures left { (raw : List ℕ) → HoldsText line.now raw → (self.old.is_typed && is_accepted status.now) ≡ true → command_of raw ≡ Some Quit → self.new.is_left ≡ true }
        ensures stays { (raw : List ℕ) → HoldsText line.now raw → command_of raw ≢ Some Quit → self.new.is_left ≡ self.old.is_left }
    {
        if self.is_followed(status) {
            self.keep(home, line, session.image());
            self.follow_change(line, session);
        }
    }

    /// Whether a line of this status is followed: it was typed and accepted.
    fn is_followed(&self, status: &Status) -> bool
        ensures { result ≡ (self.now.is_typed && is_accepted status.now) }
    {
        self.is_typed && status.is_accepted()
    }

    /// Follows what the host has of the session, along an accepted line that left this image.
    fn keep(&mut self, home: Option<&str>, line: &HeldLine, image: &Image)
        ensures others { self.new ≡ record self.old { kept = self.new.kept } }
        ensures kept { (raw : List ℕ) → HoldsText line.now raw → (found : List ℕ) × MayBeDefault image.now (parts_of_line raw).first found
            × (self.new.kept ≡ kept_after self.old.kept (effect_of (option_copied home.entry) found (parts_of_line raw)) image.now) }
    {
        let parts = LineParts::of(line);
        let found = default_name(self.alloc, image, parts.first).unwrap_or(None);
        self.kept = kept_after(self.kept, home, bytes_of(&found, b""), &parts, image);
    }

    /// Keeps the first bytes of the line that is being read, if lines are named by their numbers.
    #[tactic(auto, using(std::proofs::lemmas::List::take_min))]
    pub fn hold(&mut self, bytes: &[u8])
        ensures others { self.new ≡ record self.old { first_bytes = self.new.first_bytes } }
        ensures held { self.old.is_numbered ≡ true → self.new.first_bytes.items ≡ self.old.first_bytes.items ++ take (line_limit - length self.old.first_bytes.items) bytes.now }
        ensures unheld { self.old.is_numbered ≡ false → self.new.first_bytes ≡ self.old.first_bytes }
    {
        if self.is_numbered {
            let room = LINE_BYTES - self.first_bytes.len();
            let held = &bytes[..room.min(bytes.len())];
            let _ = self.first_bytes.try_extend_from_slice(held);
        }
    }

    /// Counts a line that was read.
    pub fn pass_line(&mut self)
        ensures others { self.new ≡ record self.old { lines = one_more_line self.old.lines; is_prompting = false; first_bytes = self.new.first_bytes } }
        ensures unread { self.new.first_bytes.items ≡ [] }
    {
        self.lines = self.lines.saturating_add(1);
        self.is_prompting = false;
        self.first_bytes.clear();
    }

    /// Notes that the script was read to its end, by which the session is left. Behind a prompt it
    /// ends the line.
    pub fn leave(&mut self)
        ensures lent { self.new.output.writer.ghost_name ≡ self.old.output.writer.ghost_name }
        ensures others { self.new ≡ record self.old { is_left = true; output = self.new.output } }
        ensures ended { WritesEach (account_at W.contents self.old.output) (account_at W.contents self.new.output) (lines_if self.old.is_prompting (codes "\n")) }
    {
        self.is_left = true;
        if self.is_prompting {
            let _ = self.output.write(b"\n");
        }
    }

    /// Whether it may write something about a line of this status.
    pub fn may_say(&self, status: &Status) -> bool
        ensures { result ≡ (self.now.is_typed || (self.now.is_numbered && not (is_accepted status.now))) }
    {
        self.is_numbered && !status.is_accepted() || self.is_typed
    }

    /// The beginning of the explanation of a line, if lines are named by their numbers. Of a line
    /// that is too long it has the first bytes.
    fn start_of(&self, line: &HeldLine) -> Option<Vec<u8>>
        ensures { IfSome result (λ start. (self.now.is_numbered ≡ true)
            × ((raw : List ℕ) → HoldsText line.now raw → start.items ≡ line_start (one_more_line self.now.lines) (shown_raw_text raw self.now.first_bytes.items))) }
    {
        if !self.is_numbered {
            return None;
        }
        let text = text_of(line, self.first_bytes.as_slice());
        line_start(self.alloc, self.lines.saturating_add(1), text).ok()
    }

    /// Ends the session. If lines are typed and its image is not the one that a file has, it says
    /// so, and keeps the session if it was left by `quit` or by the end of what is typed.
    pub fn end_with(&mut self, home: Option<&str>, session: &Session)
        ensures lent { self.new.output.writer.ghost_name ≡ self.old.output.writer.ghost_name }
        ensures advised { (self.old.is_typed && is_unsaved self.old.kept (present_image session.now)) ≡ true → (line : List ℕ)
            × (((line ≡ unsaved_line) × ((H.state self.new.host).files ≡ (H.state self.old.host).files)) ⊎ ((self.old.is_left ≡ true) × IsKeptUnder (H.state self.old.host) (option_copied home.entry) session.now line (H.state self.new.host)))
            × Writes (account_at W.contents self.old.output) (account_at W.contents self.new.output) line }
        ensures silent { (self.old.is_typed && is_unsaved self.old.kept (present_image session.now)) ≡ false → self.new ≡ self.old }
    {
        if !self.leaves_unsaved(session.image()) {
            return;
        }
        let kept = if self.is_left {
            keep_session(self.alloc, &mut self.host, home, session)
        } else {
            None
        };
        let _ = self.output.write(bytes_of(&kept, UNSAVED));
    }

    /// Whether lines are typed, and no file has this image.
    fn leaves_unsaved(&self, image: &Image) -> bool
        ensures { result ≡ (self.now.is_typed && is_unsaved self.now.kept image.now) }
    {
        self.is_typed && is_unsaved(self.kept, image)
    }

    /// Follows a session along an accepted line: its changes, of which it says which one was undone
    /// or redone, and its end.
    fn follow_change(&mut self, line: &HeldLine, session: &Session)
        ensures lent { self.new.output.writer.ghost_name ≡ self.old.output.writer.ghost_name }
        ensures others { self.new ≡ record self.old { output = self.new.output; done = session.now.cursor; past = self.new.past; is_left = self.new.is_left } }
        ensures named { (raw : List ℕ) → HoldsText line.now raw → WritesEach (account_at W.contents self.old.output) (account_at W.contents self.new.output)
            (named_changes true (command_of raw) (known_line self.old.past session.now.cursor) (known_line self.old.past self.old.done)) }
        ensures past { (raw : List ℕ) → HoldsText line.now raw → IsPastAfter (makes_change (command_of raw) self.old.done session.now.cursor)
            self.old.done (shown_raw_line (shown_raw_text raw [])) self.old.past self.new.past }
        ensures left { (raw : List ℕ) → HoldsText line.now raw → command_of raw ≡ Some Quit → self.new.is_left ≡ true }
        ensures stays { (raw : List ℕ) → HoldsText line.now raw → command_of raw ≢ Some Quit → self.new.is_left ≡ self.old.is_left }
    {
        let before = self.done;
        self.done = session.done();
        match command_of(line) {
            Some(LineCommand::Undo) => {
                let undone = self.past.known_line(self.done);
                let _ = write_change(&mut self.output, b"  taken back: ", undone);
            }
            Some(LineCommand::Redo) => {
                let redone = self.past.known_line(before);
                let _ = write_change(&mut self.output, b"  done again: ", redone);
            }
            Some(LineCommand::Quit) => self.is_left = true,
            _ if self.done > before => self.past.record(before, text_of(line, b"")),
            _ => {}
        }
    }
}

/// The bytes of a text, or these if there is none.
fn bytes_of<'a>(text: &'a Option<Vec<u8>>, other: &'a [u8]) -> &'a [u8]
    ensures { result.now ≡ option_map_or (λ bytes. bytes.items) text.now other.now }
{
    match text {
        Some(text) => text.as_slice(),
        None => other,
    }
}

/// The text of a line, or this one if it is too long.
fn text_of<'a>(line: &'a HeldLine, other: &'a [u8]) -> &'a [u8]
    ensures { (raw : List ℕ) → HoldsText line.now raw → result.now ≡ shown_raw_text raw other.now }
{
    line.text().unwrap_or(other)
}

/// The command of a line.
#[tactic(auto, unfolding(crate::specs::Past::command_of))]
fn command_of(line: &HeldLine) -> Option<LineCommand>
    ensures { (raw : List ℕ) → HoldsText line.now raw → result ≡ command_of raw }
{
    LineCommand::named(LineParts::of(line).command)
}

/// Whether a line asks which commands there are.
fn asks_for_help(line: &HeldLine, status: &Status) -> bool
    ensures { (raw : List ℕ) → HoldsText line.now raw → result ≡ asks_for_help raw status.now }
{
    match *status {
        Status::UnknownCommand => matches!(LineParts::of(line).command, "help" | "?"),
        _ => false,
    }
}

impl<'w, W: Write, H: Host> Observer for Advisor<'w, W, H> {
    fn miss(&mut self, name: &str, contents: Result<&[u8], HostFault>) {
        self.note_miss(name, contents);
    }

    fn begin(&mut self, opening: &Opening<'_>, session: &Session) {
        self.begin_with(opening, session);
    }

    fn wait(&mut self, image: &Image) {
        self.ask_with(image);
    }

    fn take(&mut self, bytes: &[u8]) {
        self.hold(bytes);
    }

    fn reach_end(&mut self) {
        self.leave();
    }

    fn skip(&mut self) {
        self.pass_line();
    }

    fn needs_delivery(&self, status: &Status) -> bool {
        self.may_say(status)
    }

    fn observe(&mut self, home: Option<&str>, line: &HeldLine, status: &Status, session: &Session) {
        self.observe_with(home, line, status, session);
    }

    fn end(&mut self, home: Option<&str>, session: &Session) {
        self.end_with(home, session);
    }
}

/// Writes which change was undone or redone: by the line that made it, unless that is lost.
fn write_change<W: Write>(
    output: &mut OutputStream<'_, W>,
    start: &[u8],
    line: Option<&[u8]>,
) -> Result<(), WriteFault>
    ensures same { output.new.writer.ghost_name ≡ output.old.writer.ghost_name }
    ensures either { Writes (account_at W.contents output.old) (account_at W.contents output.new) (change_line start.now (option_copied line.entry)) }
{
    output.write(start)?;
    write_line(output, line.unwrap_or(b"a change whose line is not known"))
}

/// Writes a text and the line's end.
fn write_line<W: Write>(output: &mut OutputStream<'_, W>, text: &[u8]) -> Result<(), WriteFault>
    ensures same { output.new.writer.ghost_name ≡ output.old.writer.ghost_name }
    ensures either { Writes (account_at W.contents output.old) (account_at W.contents output.new) (text.now ++ codes "\n") }
{
    output.write(text)?;
    output.write(b"\n")
}
