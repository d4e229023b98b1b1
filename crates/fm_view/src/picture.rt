//! A run as a picture (SVG): a lane for each instance, time to the right.

use crate::lanes::{BAR, Columns, LANE, LEFT, Lane, LaneOwner, NameRows, lanes, y_of};
use fm_core::Phase;
use fm_page::Label;
use fm_report::{Event, Facts, Kind, Moment, Notes, Text, fill, push_operation};
use std::alloc::{AllocError, Global};

/// A picture that is being drawn.
#[derive(Drop)]
pub struct Picture<'a> {
    pub alloc: Global,
    pub notes: &'a Notes,
    pub moments: &'a [Moment],
    /// What is told of each event to those who point at it.
    pub titles: &'a [Label],
    pub columns: Columns,
    pub lanes: Vec<Lane>,
    /// The row of each operation's name, if there is room for it.
    pub rows: Vec<Option<u32>>,
    /// How far right the last status reaches, and how far down it stands.
    pub said: (u32, u32),
    pub text: Text,
}

/// The picture of a run.
pub fn draw(
    alloc: Global,
    notes: &Notes,
    moments: &[Moment],
    titles: &[Label],
) -> Result<String, AllocError> {
    let columns = Columns::new(alloc, moments)?;
    let mut rows = Vec::new(alloc);
    let counts = rows_of(alloc, notes, (moments, &columns), &mut rows)?;
    let mut picture = Picture {
        alloc,
        notes,
        moments,
        titles,
        columns,
        lanes: lanes(alloc, notes, counts.as_slice())?,
        rows,
        said: (0, 0),
        text: Text::new(alloc),
    };
    picture.begin();
    picture.draw_phases();
    picture.draw_lanes();
    picture.draw_contexts();
    picture.draw_ways();
    picture.draw_early_drains();
    picture.draw_refusals();
    picture.draw_lines();
    picture.draw_legend();
    picture.end()
}

// The rows of the operations' names, and how many each volume has.
fn rows_of(
    alloc: Global,
    notes: &Notes,
    (moments, columns): (&[Moment], &Columns),
    rows: &mut Vec<Option<u32>>,
) -> Result<Vec<u32>, AllocError> {
    let mut counts = Vec::new(alloc);
    for _ in 0..notes.operations.len() {
        rows.push(None)?;
    }
    for volume in 0..notes.volumes.len() {
        counts.push(place_names(alloc, notes, (moments, columns), volume, rows)?)?;
    }
    Ok(counts)
}

// Finds a row for the name of each operation on a volume. It gives how many rows there are.
fn place_names(
    alloc: Global,
    notes: &Notes,
    (moments, columns): (&[Moment], &Columns),
    volume: usize,
    rows: &mut [Option<u32>],
) -> Result<u32, AllocError> {
    let mut used = NameRows::new(alloc);
    for (at, moment) in moments.iter().enumerate() {
        if let Some((operation, number)) = begun_on(notes, &moment.event, volume) {
            let row = used.place(columns.x(at), width_of(alloc, notes, operation)?)?;
            if let Some(place) = rows.get_mut(number) {
                *place = row;
            }
        }
    }
    Ok(used.count())
}

// The operation that began on a volume, with its place among all.
fn begun_on(notes: &Notes, event: &Event, volume: usize) -> Option<(u64, usize)> {
    let operation = event.facts.operation?;
    let is_here = usize::from(notes.volume_of(operation).unwrap_or(0)) == volume;
    if event.kind != Kind::Began || !is_here {
        return None;
    }
    Some((operation, usize::try_from(operation).ok()?))
}

/// How many letters of an operation's name are drawn.
pub const NAME: usize = 34;

// How wide an operation's name is.
fn width_of(alloc: Global, notes: &Notes, operation: u64) -> Result<u32, AllocError> {
    let mut text = Text::new(alloc);
    push_operation(&mut text, notes, operation);
    text.check()?;
    let letters = u32::try_from(text.len().min(NAME)).unwrap_or(0);
    Ok(letters.saturating_mul(6).saturating_add(14))
}

impl Picture<'_> {
    // How far down the lanes end.
    fn bottom(&self) -> u32 {
        match self.lanes.last() {
            Some(lane) => lane.top.saturating_add(lane.height),
            None => 60,
        }
    }

    fn begin(&mut self) {
        let width = self.columns.right().saturating_add(120).max(960);
        let height = self.bottom().saturating_add(84);
        self.put(
            "<svg xmlns=\"http://www.w3.org/2000/svg\" width=\"%\" height=\"%\" font-family=\"sans-serif\" font-size=\"11\">\n<rect width=\"%\" height=\"%\" fill=\"#ffffff\"/>\n",
            &[width, height, width, height],
            &[],
        )
    }

    fn end(mut self) -> Result<String, AllocError> {
        self.put("</svg>\n", &[], &[]);
        let Picture { text, .. } = self;
        text.finish()
    }

    /// Appends a text that stands at a place.
    pub fn write_text(&mut self, (x, y): (u32, u32), style: &str, label: &Label) {
        let text = label.text();
        self.put(
            "<text x=\"%\" y=\"%\" $>$</text>\n",
            &[x, y],
            &[style, text],
        )
    }

    /// Appends a piece of the picture, in which each `%` stands for the next number, and each `$` for the next word.
    pub fn put(&mut self, pattern: &str, numbers: &[u32], words: &[&str]) {
        let (mut numbers, mut words) = (numbers.iter(), words.iter());
        for byte in pattern.as_bytes() {
            match *byte {
                b'%' => put_number(&mut self.text, numbers.next()),
                b'$' => put_word(&mut self.text, words.next()),
                other => self.text.push(char::from(other)),
            }
        }
    }

    /// A label of these bytes.
    pub fn label_of(&mut self, bytes: &[u8]) -> Label {
        match Label::new(self.alloc, bytes) {
            Ok(label) => label,
            Err(_) => {
                self.text.fail();
                Label::empty(self.alloc)
            }
        }
    }

    /// A label of what these facts name, of so many letters at most.
    pub fn label(&mut self, facts: &Facts, pattern: &str, most: usize) -> Label {
        let mut text = Text::new(self.alloc);
        fill(&mut text, self.notes, facts, pattern);
        if text.check().is_err() {
            self.text.fail();
        }
        let bytes = text.as_str().as_bytes();
        self.label_of(bytes.get(..most).unwrap_or(bytes))
    }

    /// Begins a group of marks, with what is told to those who point at it.
    pub fn begin_mark(&mut self, at: usize) {
        match self.titles.get(at) {
            Some(title) => {
                self.text.push_str("<g><title>");
                self.text.push_str(title.text());
                self.text.push_str("</title>")
            }
            None => self.put("<g>", &[], &[]),
        }
    }

    /// Ends it.
    pub fn end_mark(&mut self) {
        self.put("</g>\n", &[], &[])
    }

    fn draw_lanes(&mut self) {
        for at in 0..self.lanes.len() {
            if let Some(lane) = self.lanes.get(at).copied() {
                self.draw_lane(lane);
            }
        }
    }

    fn draw_lane(&mut self, lane: Lane) {
        let right = self.columns.right();
        let y = lane.y();
        let text_y = y.saturating_add(4);
        match lane.owner {
            LaneOwner::Client(volume) => {
                let label = self.label(&Facts::volume_since(u64::from(volume), 0), "%v", 28);
                self.put(
                    "<line x1=\"10\" y1=\"%\" x2=\"%\" y2=\"%\" stroke=\"#222\" stroke-width=\"1.5\"/>\n",
                    &[y, right, y],
                    &[],
                );
                self.write_text((10, y.saturating_sub(6)), "font-weight=\"bold\"", &label)
            }
            LaneOwner::Instance(instance) => {
                let x = self.attached_at(instance);
                let label = self.label(&Facts::instance(u64::from(instance)), "%i", 28);
                self.put(
                    "<line x1=\"%\" y1=\"%\" x2=\"%\" y2=\"%\" stroke=\"#bbb\"/>\n",
                    &[x, y, right, y],
                    &[],
                );
                self.write_text((10, text_y), "", &label)
            }
            LaneOwner::Base(volume) => {
                let facts = Facts::number(u64::from(volume));
                let label = self.label(&facts, "file system of v%n", 28);
                let top = lane.top.saturating_add(4);
                let width = right.saturating_sub(LEFT);
                let height = LANE - 8;
                self.put(
                    "<rect x=\"%\" y=\"%\" width=\"%\" height=\"%\" fill=\"#eef0f2\"/>\n",
                    &[LEFT, top, width, height],
                    &[],
                );
                self.write_text((10, text_y), "fill=\"#555\"", &label)
            }
        }
    }

    // How far right an instance comes to be.
    fn attached_at(&self, instance: u16) -> u32 {
        let found = self
            .moments
            .iter()
            .position(|moment| is_birth(&moment.event, instance));
        match found {
            Some(at) => self.columns.x(at),
            None => LEFT,
        }
    }

    // The lives of the instances: a shade for each phase but that of being attached.
    fn draw_phases(&mut self) {
        for at in 0..self.notes.changes.len() {
            self.draw_phase(at);
        }
    }

    fn draw_phase(&mut self, at: usize) {
        let Some(change) = self.notes.changes.get(at).copied() else {
            return;
        };
        let Some(colour) = shade(change.phase) else {
            return;
        };
        let later = self.notes.changes.iter().skip(at).find(|later| later.instance
            == change.instance
            && later.phase != change.phase);
        let until = match later {
            Some(later) => self.columns.x_of_line(self.moments, later.line),
            None => self.columns.right(),
        };
        let owner = LaneOwner::Instance(change.instance);
        let Some(lane) = self.lanes.iter().find(|lane| lane.owner == owner).copied() else {
            return;
        };
        let x = self.columns.x_of_line(self.moments, change.line);
        let width = until.saturating_sub(x);
        let (top, height) = (lane.top.saturating_add(2), lane.height.saturating_sub(4));
        self.put(
            "<rect x=\"%\" y=\"%\" width=\"%\" height=\"%\" fill=\"$\" fill-opacity=\"0.55\"/>\n",
            &[x, top, width, height],
            &[colour],
        )
    }

    fn draw_contexts(&mut self) {
        for number in 0..self.notes.contexts.len() {
            self.draw_context(number);
        }
    }

    // A context: a bar from its birth to its cleanup, under the lane of its instance.
    fn draw_context(&mut self, number: usize) {
        let Some(note) = self.notes.contexts.get(number).copied() else {
            return;
        };
        let Some(lane_y) = y_of(&self.lanes, LaneOwner::Instance(note.instance)) else {
            return;
        };
        let mut row = 0u32;
        for other in self.notes.contexts.iter().take(number) {
            if other.instance == note.instance {
                row = row.saturating_add(1);
            }
        }
        let y = lane_y
            .saturating_add(LANE / 2)
            .saturating_add(row.saturating_mul(BAR));
        let context = number as u64;
        let from = self.x_of_deed(context, false).unwrap_or(LEFT);
        let right = self
            .x_of_deed(context, true)
            .unwrap_or(self.columns.right());
        let width = right.saturating_sub(from);
        self.put(
            "<rect x=\"%\" y=\"%\" width=\"%\" height=\"8\" rx=\"3\" fill=\"#ffd98a\" stroke=\"#b98a1d\"/>\n",
            &[from, y, width],
            &[],
        );
        let facts = Facts {
            kind: Some(note.kind),
            ..Facts::number(context)
        };
        let label = self.label(&facts, "c%n %k", 28);
        let style = "fill=\"#8a6410\" font-size=\"10\" dx=\"24\"";
        self.write_text((10, y.saturating_add(8)), style, &label);
        self.draw_links(context, y.saturating_add(4));
        self.draw_leaks(context, (lane_y, y.saturating_add(4)))
    }

    // Where a context was allocated, or where its cleanup ended.
    fn x_of_deed(&self, context: u64, is_end: bool) -> Option<u32> {
        let at = self
            .moments
            .iter()
            .position(|moment| is_deed(&moment.event, context, is_end))?;
        Some(self.columns.x(at))
    }

    // Where a context was set.
    fn draw_links(&mut self, context: u64, y: u32) {
        for at in 0..self.moments.len() {
            if self
                .moments
                .get(at)
                .is_some_and(|moment| is_set(&moment.event, context))
            {
                let x = self.columns.x(at);
                self.begin_mark(at);
                self.put(
                    "<circle cx=\"%\" cy=\"%\" r=\"3.5\" fill=\"#8a6410\"/>",
                    &[x, y],
                    &[],
                );
                self.end_mark();
            }
        }
    }

    // Where a reference to a context was left behind: a mark at the callback that left it, and a line down to the context.
    fn draw_leaks(&mut self, context: u64, (from, y): (u32, u32)) {
        for at in 0..self.notes.leaks.len() {
            if let Some(leak) = self.notes.leaks.get(at).copied() {
                if leak.context == context {
                    let x = self.columns.x_of_line(self.moments, leak.line);
                    self.put(
                        "<path d=\"M% %V%\" stroke=\"#c01818\" stroke-dasharray=\"2 2\"/>\n<circle cx=\"%\" cy=\"%\" r=\"8\" fill=\"none\" stroke=\"#c01818\" stroke-width=\"2\"/>\n",
                        &[x, from, y, x, from],
                        &[],
                    );
                    let label = self.label_of(b"LEAKED");
                    let style = "fill=\"#c01818\" font-weight=\"bold\" font-size=\"9\"";
                    let place = (x.saturating_add(4), y.saturating_add(4));
                    self.write_text(place, style, &label);
                }
            }
        }
    }

    // The lines that were refused: a tick above their numbers.
    fn draw_refusals(&mut self) {
        let y = self.bottom().saturating_add(4);
        for at in 0..self.moments.len() {
            let is_refused = self
                .moments
                .get(at)
                .is_some_and(|moment| moment.event.kind == Kind::Refused);
            if is_refused {
                let x = self.columns.x(at);
                self.begin_mark(at);
                self.put(
                    "<path d=\"M% %m-4 -4l8 8m0 -8l-8 8\" stroke=\"#c01818\" stroke-width=\"2\"/>",
                    &[x, y],
                    &[],
                );
                self.end_mark();
            }
        }
    }

    // The numbers of lines, below the lanes.
    fn draw_lines(&mut self) {
        let y = self.bottom().saturating_add(20);
        let mut last = 0u32;
        let mut next_x = 0u32;
        for at in 0..self.moments.len() {
            let Some(moment) = self.moments.get(at).copied() else {
                return;
            };
            let x = self.columns.x(at);
            if moment.line != last && x >= next_x {
                last = moment.line;
                next_x = x.saturating_add(if last < 100 { 16 } else { 28 });
                self.put(
                    "<text x=\"%\" y=\"%\" fill=\"#888\" font-size=\"9\" text-anchor=\"middle\">%</text>\n",
                    &[x, y, last],
                    &[],
                );
            }
        }
        self.put(
            "<text x=\"10\" y=\"%\" fill=\"#888\" font-size=\"9\">line</text>\n",
            &[y],
            &[],
        )
    }

    // What the marks mean.
    fn draw_legend(&mut self) {
        let y = self.bottom().saturating_add(44);
        let text = y.saturating_add(4);
        self.draw_circle((20, y), "#444", "#444");
        self.draw_circle((210, y), "#ffffff", "#444");
        self.draw_pause((305, y));
        self.put(
            "<path d=\"M380 %m-5 4l5 -9l5 9z\" fill=\"#444\"/>\n<path d=\"M490 %m-5 -5l10 10m0 -10l-10 10\" stroke=\"#c01818\" stroke-width=\"2.5\"/>\n<path d=\"M570 %m-5 -5h10v10h-10z\" fill=\"#c01818\"/>\n<path d=\"M680 %m-4 -4h8v8h-8z\" fill=\"#ffffff\" stroke=\"#444\"/>\n<path d=\"M880 %m-4 -4l8 8m0 -8l-8 8\" stroke=\"#c01818\" stroke-width=\"2\"/>\n",
            &[y, y, y, y, y],
            &[],
        );
        self.put(
            "<g fill=\"#333\"><text x=\"30\" y=\"%\">preoperation, asks to come back</text><text x=\"220\" y=\"%\">passes it on</text><text x=\"315\" y=\"%\">holds it</text><text x=\"390\" y=\"%\">postoperation</text><text x=\"502\" y=\"%\">drained</text><text x=\"582\" y=\"%\">ended, failed</text><text x=\"692\" y=\"%\">answered without the file system</text><text x=\"892\" y=\"%\">refused</text></g>\n",
            &[text, text, text, text, text, text, text, text],
            &[],
        );
        self.draw_shades(y.saturating_add(24))
    }

    // What the shades mean.
    fn draw_shades(&mut self, y: u32) {
        let mut x = 14u32;
        for (phase, word) in SHADES {
            let colour = shade(phase).unwrap_or("#ffffff");
            let top = y.saturating_sub(9);
            let text_x = x.saturating_add(26);
            self.put(
                "<rect x=\"%\" y=\"%\" width=\"20\" height=\"12\" fill=\"$\" fill-opacity=\"0.55\"/>\n<text x=\"%\" y=\"%\" fill=\"#333\">$</text>\n",
                &[x, top, text_x, y],
                &[colour, word],
            );
            x = x.saturating_add(130);
        }
        let text_x = x.saturating_add(26);
        let top = y.saturating_sub(8);
        self.put(
            "<rect x=\"%\" y=\"%\" width=\"20\" height=\"8\" rx=\"3\" fill=\"#ffd98a\" stroke=\"#b98a1d\"/>\n<text x=\"%\" y=\"%\" fill=\"#333\">a context, with a dot where it is set</text>\n",
            &[x, top, text_x, y],
            &[],
        )
    }
}

// Appends a number, if there is one.
fn put_number(text: &mut Text, number: Option<&u32>) {
    match number {
        Some(number) => text.push_number(u64::from(*number)),
        None => {}
    }
}

// Appends a word, if there is one.
fn put_word(text: &mut Text, word: Option<&&str>) {
    match word {
        Some(word) => text.push_str(word),
        None => {}
    }
}

// Whether an instance comes to be there.
fn is_birth(event: &Event, instance: u16) -> bool {
    matches!(event.kind, Kind::Attached | Kind::InSetup)
        && event.facts.instance == Some(u64::from(instance))
}

// Whether a context is allocated there, or its cleanup ends.
fn is_deed(event: &Event, context: u64, is_end: bool) -> bool {
    let kind = if is_end {
        Kind::Cleaned
    } else {
        Kind::Allocated
    };
    event.kind == kind && event.facts.context == Some(context)
}

// Whether a context is set there.
fn is_set(event: &Event, context: u64) -> bool {
    event.kind == Kind::Set && event.facts.context == Some(context)
}

/// The phases that are shaded, with the words for them.
const SHADES: [(Phase, &str); 5] = [
    (Phase::Setup, "setup"),
    (Phase::Stopping, "stopping"),
    (Phase::Completing, "completing"),
    (Phase::Emptying, "being emptied"),
    (Phase::Detached, "detached"),
];

// The shade of a phase.
fn shade(phase: Phase) -> Option<&'static str> {
    match phase {
        Phase::Attached => None,
        Phase::Setup => Some("#cfe6ff"),
        Phase::Stopping => Some("#fff0b0"),
        Phase::Completing => Some("#ffd0a0"),
        Phase::Emptying => Some("#ffb8b0"),
        Phase::Detached => Some("#c8c8c8"),
    }
}
