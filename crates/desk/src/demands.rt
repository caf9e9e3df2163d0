// The billing demands of a month, from a file of sheets.
ghost use Rattle.std.specs.Prelude.{◌≡◌, IfOk};
ghost use Rattle.text.specs.Format.{lines};
ghost use Rattle.sheet_file.specs.Files.{outcomes};
ghost use Rattle.desk.specs.Posting.{posted_all, is_complete};

use crate::arguments::{Asked, month_asked_for};
use crate::posting::post_file;
use crate::words::tell;
use demand::determinants::{connection_demand, network_demand, system_peak};
use demand::search::Peak;
use hours::rules::{PeakPeriod, WholeMonth};
use readings::questions::first_missing;
use readings::readings::{Readings, SheetStore};
use std::io::{Read, Write};
use std::{env, io};
use stores::full_table::FullTable;
use tariff::charge::Charge;
use tariff::points::PointKind;

// A month and the readings that its demands are taken from.
#[derive(Drop)]
struct Demands<'a, R> {
    month: &'a Asked,
    readings: &'a R,
}

impl<'a, R: Readings> Demands<'a, R> {
    // One line for a network point: charge, determinant, day and hour, and C and Q.
    fn print_network<W: Write>(&self, out: &mut W, system: Peak, point: u32) -> io::Result<()> {
        let calendar = &self.month.calendar;
        let peak_period = PeakPeriod { calendar };
        let demand = network_demand(self.readings, &peak_period, calendar.days(), system, point);
        let charge = Charge::Network.number();
        let (determinant, day, hour) = demand.determinant;
        let coincident = demand.coincident;
        let own = demand.own.0;
        writeln!(
            out,
            "{point}|{charge}|{determinant}|{day}|{hour}|{coincident}|{own}"
        )
    }

    // A line for each connection charge of a point, which is in service all month.
    fn print_connection<W: Write>(
        &self,
        out: &mut W,
        kind: PointKind,
        point: u32,
    ) -> io::Result<()> {
        let calendar = &self.month.calendar;
        let service = WholeMonth { calendar };
        let (determinant, day, hour) = connection_demand(
            self.readings,
            &service,
            calendar.days(),
            point,
        );
        for charge in [Charge::Line, Charge::Transformation] {
            if kind.has(charge) {
                let number = charge.number();
                writeln!(out, "{point}|{number}|{determinant}|{day}|{hour}")?;
            }
        }
        Ok(())
    }

    fn print<W: Write>(&self, out: &mut W) -> io::Result<()> {
        let Asked { calendar, points } = self.month;
        let system = system_peak(points, calendar, self.readings);
        let (quantity, day, hour) = system;
        writeln!(out, "peak|{quantity}|{day}|{hour}")?;
        for point in 1..=points.count() {
            match points.kind(point) {
                Some(kind) if kind.is_network() => self.print_network(out, system, point)?,
                Some(kind) => self.print_connection(out, kind, point)?,
                None => {}
            }
        }
        Ok(())
    }
}

// Posts a file of sheets to a store, tells of each line that is refused, and prints the demands if no sheet is missing;
// whether none is.
pub fn answer<S: SheetStore, W: Write, E: Write>(
    month: &Asked,
    store: &mut S,
    file: &[u8],
    out: &mut W,
    faults: &mut E,
) -> io::Result<bool>
    ensures printed { IfOk result (λ b. b ≡ is_complete month.now (posted_all (S.Readings.meaning store.old) (outcomes 0 (lines file.now)))) }
    ensures store { S.Readings.meaning store.new ≡ posted_all (S.Readings.meaning store.old) (outcomes 0 (lines file.now)) }
{
    post_file(store, file, faults);
    let points = month.points.count();
    let days = month.calendar.days();
    if let Some(refusal) = first_missing(store, points, days) {
        write!(faults, "demands: ")?;
        tell(faults, refusal)?;
        return Ok(false);
    }
    let demands = Demands {
        month,
        readings: store,
    };
    demands.print(out)?;
    Ok(true)
}

const USAGE: &str = "\
usage: demands YEAR MONTH HOLIDAYS SUMMER POINTS < SHEETS
  HOLIDAYS, SUMMER  days as 1,5,22-24, or - for none
  POINTS            N, CL, CT or CLT for each point, as N,N,CLT, or - for none
prints the system peak, and for each point and charge its billing demand:
  peak|quantity|day|hour
  point|650|determinant|day|hour|C|Q
  point|651|determinant|day|hour
  point|652|determinant|day|hour
";

// How the program is used: on standard output where that was asked for; whether it was.
fn explain<W: Write, E: Write>(
    args: &[String],
    out: &mut W,
    faults: &mut E,
) -> anyhow::Result<bool> {
    let asked = matches!(args, [word] if word.as_str() == "--help");
    if asked {
        out.write_all(USAGE.as_bytes())?;
    } else {
        faults.write_all(USAGE.as_bytes())?;
    }
    Ok(asked)
}

// Reads the sheets into a full table, and prints the demands; whether it did.
fn work<W: Write, E: Write>(
    rt: &HostRuntime,
    month: &Asked,
    out: &mut W,
    faults: &mut E,
) -> anyhow::Result<bool> {
    let heap = rt.alloc();
    let mut file = Vec::new(heap);
    rt.stdin().read_to_end(&mut file)?;
    let points = month.points.count();
    let days = month.calendar.days();
    let mut memory = vec![in heap; 0u32; (points * days * 24) as usize]?;
    let mut store = FullTable::new(memory.as_mut_slice(), points, days);
    Ok(answer(month, &mut store, file.as_slice(), out, faults)?)
}

// Takes the month from the arguments and the sheets from standard input; whether what was asked for was printed.
pub fn run<W: Write, E: Write>(
    rt: &HostRuntime,
    out: &mut W,
    faults: &mut E,
) -> anyhow::Result<bool> {
    let args: Vec<String> = env::args(rt)?.skip(1).collect(rt.alloc())?;
    let [year, month, holidays, summer, points] = args.as_slice() else {
        return explain(args.as_slice(), out, faults);
    };
    match month_asked_for(
        year.as_bytes(),
        month.as_bytes(),
        holidays.as_bytes(),
        summer.as_bytes(),
        points.as_bytes(),
    ) {
        Ok(month) => work(rt, &month, out, faults),
        Err(fault) => {
            writeln!(faults, "demands: {fault}")?;
            Ok(false)
        }
    }
}
