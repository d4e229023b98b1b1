//! The ways of operations in a picture: lines that go right, then down or up, with a mark for each thing that happens on them.

use crate::lanes::{LaneOwner, ROW, y_of};
use crate::picture::{NAME, Picture};
use fm_callback_data::PreVerdict;
use fm_report::{Event, Facts, Kind};
use fm_types::Status;

/// The colours of operations, one after the other.
const COLOURS: [&str; 8] = [
    "#1f6fb4", "#c2571a", "#2c8a43", "#8a4fb0", "#b0366f", "#6d5a3c", "#0f8b8d", "#7a7a1c",
];

/// How an operation is on its way.
#[derive(Clone, Copy, PartialEq, Eq)]
enum Way {
    // It goes on.
    Going,
    // A filter holds it.
    Held,
    // Its reply was handed out.
    Over,
}

impl Picture<'_> {
    /// Draws the ways of all operations.
    pub fn draw_ways(&mut self) {
        for number in 0..self.notes.operations.len() {
            self.draw_way(number as u64);
        }
    }

    // An operation: its name above the lanes, and its way through those that it visits.
    fn draw_way(&mut self, number: u64) {
        let volume = self.notes.volume_of(number).unwrap_or(0);
        let Some(top) = y_of(&self.lanes, LaneOwner::Client(volume)) else {
            return;
        };
        let colour = COLOURS[(number % 8) as usize];
        let mut from = None;
        let mut way = Way::Going;
        for at in 0..self.moments.len() {
            if let Some((event, y)) = self.stop_of(at, number, (volume, top)) {
                let x = self.columns.x(at);
                self.draw_leg(from, (x, y), (way, colour));
                if event.kind == Kind::Began {
                    self.draw_name(number, (x, top), colour);
                }
                self.draw_mark(at, &event, (x, y), colour);
                way = way_after(&event);
                from = Some((x, y));
            }
        }
        self.draw_open_end(from, (way, colour))
    }

    // What happened to the operation at that place of the run, and how far down, if it is on its way there.
    fn stop_of(&self, at: usize, number: u64, (volume, top): (u8, u32)) -> Option<(Event, u32)> {
        let event = self.moments.get(at)?.event;
        if event.facts.operation != Some(number) {
            return None;
        }
        let y = match event.kind {
            Kind::Began | Kind::Replied => top,
            Kind::Base | Kind::InBase => y_of(&self.lanes, LaneOwner::Base(volume))?,
            Kind::Known => y_of(&self.lanes, LaneOwner::Base(volume))?.saturating_sub(17),
            Kind::InPre
            | Kind::InPost
            | Kind::InDrain
            | Kind::Pre
            | Kind::Post
            | Kind::PostHeld
            | Kind::Drained
            | Kind::Resumed
            | Kind::PostResumed => self.y_of_instance(&event)?,
            _ => return None,
        };
        Some((event, y))
    }

    // How far down the lane of an event's instance is.
    fn y_of_instance(&self, event: &Event) -> Option<u32> {
        let instance = u16::try_from(event.facts.instance?).ok()?;
        y_of(&self.lanes, LaneOwner::Instance(instance))
    }

    // A part of a way: right, then down or up.
    fn draw_leg(
        &mut self,
        from: Option<(u32, u32)>,
        (x, y): (u32, u32),
        (way, colour): (Way, &str),
    ) {
        let Some((from_x, from_y)) = from else {
            return;
        };
        let dash = dash_of(way);
        self.put(
            "<path d=\"M% %H%V%\" fill=\"none\" stroke=\"$\" stroke-width=\"2\"",
            &[from_x, from_y, x, y],
            &[colour],
        );
        self.end_path(dash)
    }

    // Ends a path that is dashed so.
    fn end_path(&mut self, dash: &str) {
        self.text.push_str(dash);
        self.text.push_str("/>\n")
    }

    // The end of a way that didn't come to a reply: it goes on to the edge.
    fn draw_open_end(&mut self, from: Option<(u32, u32)>, (way, colour): (Way, &str)) {
        let (Some((x, y)), true) = (from, way != Way::Over) else {
            return;
        };
        let right = self.columns.right();
        let dash = dash_of(way);
        self.put(
            "<path d=\"M% %H%\" fill=\"none\" stroke=\"$\" stroke-width=\"2\"",
            &[x, y, right],
            &[colour],
        );
        self.end_path(dash);
        let word = match way {
            Way::Held => b"HELD".as_slice(),
            _ => b"under way".as_slice(),
        };
        let label = self.label_of(word);
        let style = "fill=\"#c01818\" font-weight=\"bold\"";
        self.write_text(
            (right.saturating_add(6), y.saturating_add(4)),
            style,
            &label,
        )
    }

    // The name of an operation, in its row.
    fn draw_name(&mut self, number: u64, (x, top): (u32, u32), colour: &str) {
        let row = usize::try_from(number)
            .ok()
            .and_then(|at| self.rows.get(at).copied());
        let Some(Some(row)) = row else {
            return;
        };
        let volume = self.notes.volume_of(number).unwrap_or(0);
        let owner = LaneOwner::Client(volume);
        let Some(lane) = self.lanes.iter().find(|lane| lane.owner == owner).copied() else {
            return;
        };
        let y = lane
            .top
            .saturating_add(row.saturating_mul(ROW))
            .saturating_add(10);
        self.put(
            "<line x1=\"%\" y1=\"%\" x2=\"%\" y2=\"%\" stroke=\"$\" stroke-width=\"0.7\"/>\n",
            &[x, y, x, top],
            &[colour],
        );
        let label = self.label(&Facts::operation(number), "%O", NAME);
        let text = label.text();
        self.put(
            "<text x=\"%\" y=\"%\" dx=\"3\" fill=\"$\" font-weight=\"bold\" font-size=\"10\">$</text>\n",
            &[x, y],
            &[colour, text],
        )
    }

    /// Draws the drains that were taken before their turn: the operation goes on meanwhile.
    pub fn draw_early_drains(&mut self) {
        for at in 0..self.moments.len() {
            if let Some((y, is_over)) = self.early_drain_at(at) {
                let x = self.columns.x(at);
                self.begin_mark(at);
                if is_over {
                    self.draw_cross((x, y));
                } else {
                    self.put(
                        "<circle cx=\"%\" cy=\"%\" r=\"3\" fill=\"none\" stroke=\"#c01818\" stroke-width=\"1.5\"/>",
                        &[x, y],
                        &[],
                    );
                }
                self.end_mark();
            }
        }
    }

    // How far down an early drain is, and whether it returned.
    fn early_drain_at(&self, at: usize) -> Option<(u32, bool)> {
        let event = self.moments.get(at)?.event;
        let is_over = match event.kind {
            Kind::InEarlyDrain => false,
            Kind::EarlyDrained => true,
            _ => return None,
        };
        Some((self.y_of_instance(&event)?, is_over))
    }

    // What happened there.
    fn draw_mark(&mut self, at: usize, event: &Event, place: (u32, u32), colour: &str) {
        self.begin_mark(at);
        match event.kind {
            Kind::Pre | Kind::Resumed => self.draw_verdict(event.facts.verdict, place, colour),
            Kind::PostHeld => self.draw_pause(place),
            Kind::PostResumed => self.draw_circle(place, colour, colour),
            Kind::Post => self.draw_triangle(place, colour),
            Kind::Drained => self.draw_cross(place),
            Kind::Base | Kind::Replied => self.draw_status(event.facts.status, place, colour),
            Kind::Known => self.draw_known(event.facts.status, place, colour),
            _ => {}
        };
        self.end_mark()
    }

    fn draw_verdict(&mut self, verdict: Option<PreVerdict>, place: (u32, u32), colour: &str) {
        match verdict {
            Some(PreVerdict::Complete(status)) => self.draw_failure(status, place),
            Some(PreVerdict::Pending) => self.draw_pause(place),
            Some(PreVerdict::NoCallback) => self.draw_circle(place, "#ffffff", colour),
            Some(PreVerdict::WithCallback(_) | PreVerdict::Synchronize(_)) => {
                self.draw_circle(place, colour, colour)
            }
            None => {}
        }
    }

    /// A circle.
    pub fn draw_circle(&mut self, (x, y): (u32, u32), fill: &str, colour: &str) {
        self.put(
            "<circle cx=\"%\" cy=\"%\" r=\"4.5\" fill=\"$\" stroke=\"$\" stroke-width=\"1.5\"/>",
            &[x, y],
            &[fill, colour],
        )
    }

    /// A hold.
    pub fn draw_pause(&mut self, (x, y): (u32, u32)) {
        self.put(
            "<path d=\"M% %m-3 -7v14m6 -14v14\" stroke=\"#d26a00\" stroke-width=\"3.5\"/>",
            &[x, y],
            &[],
        )
    }

    fn draw_triangle(&mut self, (x, y): (u32, u32), colour: &str) {
        self.put(
            "<path d=\"M% %m-5 4l5 -9l5 9z\" fill=\"$\"/>",
            &[x, y],
            &[colour],
        )
    }

    fn draw_cross(&mut self, (x, y): (u32, u32)) {
        self.put(
            "<path d=\"M% %m-5 -5l10 10m0 -10l-10 10\" stroke=\"#c01818\" stroke-width=\"2.5\"/>",
            &[x, y],
            &[],
        )
    }

    // The status of the file system or of a reply: a failure is red, with its name.
    fn draw_status(&mut self, status: Option<Status>, (x, y): (u32, u32), colour: &str) {
        match status {
            None | Some(Status::Success) => {
                self.put(
                    "<path d=\"M% %m-3 -3h6v6h-6z\" fill=\"$\"/>",
                    &[x, y],
                    &[colour],
                )
            }
            Some(status) => self.draw_failure(status, (x, y)),
        }
    }

    // An answer in the file system's place.
    fn draw_known(&mut self, status: Option<Status>, (x, y): (u32, u32), colour: &str) {
        match status {
            None | Some(Status::Success) => self.put(
                "<path d=\"M% %m-4 -4h8v8h-8z\" fill=\"#ffffff\" stroke=\"$\" stroke-width=\"1.5\"/>",
                &[x, y],
                &[colour],
            ),
            Some(status) => self.draw_failure(status, (x, y)),
        }
    }

    // A failure, with the name of its status above it, or below it where another one stands above.
    fn draw_failure(&mut self, status: Status, (x, y): (u32, u32)) {
        let name = status.name();
        let letters = u32::try_from(name.len()).unwrap_or(0);
        let (end, row) = self.said;
        let text_y = if end > x && row == y.saturating_sub(7) {
            y.saturating_add(14)
        } else {
            y.saturating_sub(7)
        };
        self.said = (x.saturating_add(letters.saturating_mul(6)), text_y);
        self.put(
            "<path d=\"M% %m-5 -5h10v10h-10z\" fill=\"#c01818\"/><text x=\"%\" y=\"%\" fill=\"#c01818\" font-weight=\"bold\" font-size=\"9\">$</text>",
            &[x, y, x, text_y],
            &[name],
        )
    }
}

// How a line is dashed.
fn dash_of(way: Way) -> &'static str {
    match way {
        Way::Held => " stroke-dasharray=\"2 5\"",
        Way::Going | Way::Over => "",
    }
}

// How the operation is on its way after that.
fn way_after(event: &Event) -> Way {
    if event.kind == Kind::Replied {
        Way::Over
    } else if event.holds() {
        Way::Held
    } else {
        Way::Going
    }
}
