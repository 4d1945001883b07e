// The first stage: a line for each row, with what the row offers, delivered, weighs, may be asked to pay and is credited with in the
// places of the figures that will stand there. A row is decoded here, and nowhere after.
ghost use Rattle.std.specs.Prelude.{◌≡◌, true, ◌+◌, ◌<◌, ◌≤◌, length, replicate};
ghost use Rattle.columns.specs.Sum.{bit};
ghost use Rattle.records.specs.Buffer.{put};
ghost use Rattle.records.specs.Record.{record_bytes};
ghost use Rattle.files.specs.Layout.{head_at};
ghost use Rattle.files.specs.Form.{terms_of, form_of};
ghost use Rattle.files.specs.Order.{verdict_of};
ghost use Rattle.files.specs.Verdict.{Accepted};
ghost use Rattle.files.specs.Counting.{source_of, counting_row};
ghost use Rattle.duties.specs.Average.{usual, average_of, Low};
ghost use Rattle.statement.specs.Statement.{letter_l, line_widths, line_start};
ghost use Rattle.settle.specs.Answer.{average_in};
ghost use Rattle.settle.specs.Work.{lined, duty_line, row_line, Sourced, Reads, SourcesBy, DutiesBy};

use duties::{Average, Duty, USUAL, average_duty, joined, stirs, usual_duty};
use files::{Form, Row, Terms, counting_row, start_of};
use records::put_record;
use statement::{HEAD, LINE, LINE_LETTER, LINE_WIDTHS};
use units::{Hao, Kwh};

// What all rows of a file are read by: where they begin, the terms and the tariff.
#[derive(Clone, Copy)]
pub struct Job {
    pub start: usize,
    pub terms: Terms,
    pub tariff: Hao,
}

// Puts one row's line: its id and its duties.
fn put_duty(sheet: &mut [u8], i: usize, id: u16, d: Duty)
    requires { (i < 256) × (line_start (i + 1) ≤ length sheet.old) }
    ensures { sheet.new ≡ put sheet.old (line_start i) (record_bytes letter_l line_widths (duty_line id d)) }
{
    let fields = [
        u64::from(id),
        d.width1.into(),
        d.width2.into(),
        d.energy1.into(),
        d.energy2.into(),
        d.weight.into(),
        d.cap.0,
        d.bid2.0,
        d.bid1.0,
        d.credit1.into(),
        d.credit2.into(),
    ];
    put_record(sheet, HEAD + i * LINE, LINE_LETTER, &LINE_WIDTHS, &fields);
}

// An accepted pair of files: its n rows, where each of them stands that counts, and what they are read by.
#[derive(Clone, Copy)]
struct Pair<'a> {
    interval: &'a [u8],
    correction: &'a [u8],
    n: usize,
    sources: &'a [u16; 256],
    job: Job,
    ghost accepted: { verdict_of interval.now correction.now ≡ Accepted n },
    ghost sourced: { Sourced n interval.now correction.now sources.now },
    ghost reads: { Reads job interval.now },
}

impl<'a> Pair<'a> {
    // The row that counts at a position, which is the correction's where `source` says so.
    fn row(&self, i: usize, source: u16) -> Row
        requires { (i < self.now.n) × (source ≡ source_of self.now.interval.now self.now.correction.now i) }
        ensures { result ≡ counting_row self.now.interval.now self.now.correction.now i }
    {
        counting_row(
            self.interval,
            self.correction,
            self.job.start,
            self.n,
            i,
            source,
        )
    }

    // Whether the thermal average rules, and by which sums. The scan is left at the first row that keeps it from that, so that a usual
    // quarter pays for few rows.
    fn average(&self, need: Kwh) -> Average
        ensures { result ≡ average_of (terms_of self.now.interval.now) need.0 self.now.n (counting_row self.now.interval.now self.now.correction.now) }
    {
        if need == Kwh(0) {
            return USUAL;
        }
        let mut sums = USUAL;
        for i in 0..self.n {
            let row = self.row(i, self.sources[i]);
            if stirs(self.job.terms, row) {
                return USUAL;
            }
            sums = joined(sums, row);
        }
        sums
    }

    // The lines of all rows, by what says where each stands that counts and what gives its duties.
    fn read<S: Fn(usize) -> u16, D: Fn(Average, Row) -> Duty>(
        &self,
        source: S,
        ruling: Average,
        duty: D,
        sheet: &mut [u8],
    )
        requires sources { SourcesBy (S.pre source) (S.post source) self.now.n self.now.interval.now self.now.correction.now }
        requires duties { DutiesBy (D.pre duty) (D.post duty) ruling self.now.job }
        requires room { line_start self.now.n ≤ length sheet.old }
        ensures { sheet.new ≡ lined sheet.old self.now.n (row_line self.now.job.tariff.0 ruling self.now.interval.now self.now.correction.now) }
    {
        for i in 0..self.n {
            let row = self.row(i, source(i));
            let duties = duty(ruling, row);
            put_duty(sheet, i, row.id, duties);
        }
    }

    // The same, by the average that rules or without one. Without a correction nothing has to be chosen, and no source is looked up.
    fn read_by(&self, ruling: Average, sheet: &mut [u8])
        requires { (ruling.rules ≡ true → Low ruling) × (line_start self.now.n ≤ length sheet.old) }
        ensures { sheet.new ≡ lined sheet.old self.now.n (row_line self.now.job.tariff.0 ruling self.now.interval.now self.now.correction.now) }
    {
        let terms = self.job.terms;
        let tariff = self.job.tariff;
        let sources = self.sources;
        let own = |_| 0;
        let counting = |i: usize| sources[i];
        let usual = |_, row: Row| usual_duty(terms, tariff, row);
        let averaged = |ruling: Average, row: Row| average_duty(terms, ruling, tariff, row);
        if ruling.rules {
            self.read(counting, ruling, averaged, sheet);
        } else if self.correction.len() == 0 {
            self.read(own, ruling, usual, sheet);
        } else {
            self.read(counting, ruling, usual, sheet);
        }
    }
}

// Where each row stands that counts: without a correction every row is the interval's own, as the list lent says.
fn find_sources<'a>(interval: &'a [u8], correction: &'a [u8], n: usize, sources: &mut [u16; 256])
    requires correction_value { verdict_of interval.now correction.now ≡ Accepted n }
    requires sources_value { sources.old ≡ replicate 256 0 }
    ensures { Sourced n interval.now correction.now sources.new }
{
    if correction.len() == 0 {
        return;
    }
    files::sources(interval, correction, n, sources);
}

// The duties of all rows of an accepted pair, and 1 if the thermal average rules it, else 0.
pub fn read<'a>(
    interval: &'a [u8],
    correction: &'a [u8],
    form: Form,
    n: usize,
    sheet: &mut [u8],
) -> u8
    requires correction_value { (verdict_of interval.now correction.now ≡ Accepted n) × (form ≡ form_of interval.now) }
    requires n_in_bounds { line_start n ≤ length sheet.old }
    ensures value { result ≡ bit (average_in interval.now correction.now).rules }
    ensures sheet_after { sheet.new ≡ lined sheet.old n
        (row_line (head_at interval.now).tariff.0 (average_in interval.now correction.now)
        interval.now correction.now) }
{
    let head = files::head_at(interval);
    let tariff = head.tariff;
    let need = head.need;
    let terms = form.terms;
    let start = start_of(form.stated);
    let job = Job {
        start,
        terms,
        tariff,
    };
    let mut sources = [0u16; 256];
    find_sources(interval, correction, n, &mut sources);
    let pair = Pair {
        interval,
        correction,
        n,
        sources: &sources,
        job,
    };
    let ruling = pair.average(need);
    pair.read_by(ruling, sheet);
    u8::from(ruling.rules)
}
