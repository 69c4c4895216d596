// `day` and `graph`: what is shown of a day. The zone and the date are judged before the form is read.
ghost use Rattle.key.specs.Range.{half_open};
ghost use Rattle.outcomes.specs.Stored.{Sound};
ghost use Rattle.graph_text.specs.Grid.{Drawable};

use crate::form::{ROOM, load, read_form};
use crate::output::{print, refuse};
use calendar::Date;
use command::View;
use graph_text::{GRAPH_ROOM, graph_text};
use outcomes::Stored;
use report::DayTotals;
use report_text::{REPORT_ROOM, report_text};
use svg_text::{SVG_ROOM, svg_text};

// Which day is asked for, and how it is shown.
#[derive(Clone, Copy)]
struct Asked {
    view: View,
    zone: u8,
    date: Date,
}

fn show_report(rt: &HostRuntime, told: DayTotals) {
    let mut out = [0u8; REPORT_ROOM];
    let n = report_text(told.day.start, told.day.end, told.totals, &mut out);
    print(rt, &out, n);
}

fn show_graph(rt: &HostRuntime, m: &Stored, told: DayTotals)
    requires { Drawable m.now told.day.start told.day.end }
{
    let mut out = [0u8; GRAPH_ROOM];
    let n = graph_text(
        &m.lent(),
        told.day.start,
        told.day.end,
        told.totals,
        &mut out,
    );
    print(rt, &out, n);
}

fn show_picture(rt: &HostRuntime, m: &Stored, told: DayTotals)
    requires { Drawable m.now told.day.start told.day.end }
{
    let mut out = [0u8; SVG_ROOM];
    let n = svg_text(
        &m.lent(),
        told.day.start,
        told.day.end,
        told.totals,
        &mut out,
    );
    print(rt, &out, n);
}

fn show(rt: &HostRuntime, view: View, m: &Stored, told: DayTotals)
    requires { Drawable m.now told.day.start told.day.end }
{
    match view {
        View::Report => show_report(rt, told),
        View::Graph => show_graph(rt, m, told),
        View::Picture => show_picture(rt, m, told),
    }
}

fn of_map(rt: &HostRuntime, asked: Asked, m: &Stored)
    requires { Sound half_open m.now }
{
    let Date { year, month, day } = asked.date;
    match report::checked(m, asked.zone, year, month, day) {
        Ok(told) => show(rt, asked.view, m, told),
        Err(why) => refuse(rt, why),
    }
}

fn of_form(rt: &HostRuntime, asked: Asked, form: &[u8]) {
    let mut m = Stored::new();
    match load(form, &mut m) {
        Ok(()) => of_map(rt, asked, &m),
        Err(why) => refuse(rt, why),
    }
}

pub fn run(rt: &HostRuntime, view: View, zone: u8, year: u16, month: u8, day: u8) {
    match log_day::day_of(zone, year, month, day) {
        Err(why) => refuse(rt, why),
        Ok(_) => {
            let mut bytes = [0u8; ROOM];
            let n = read_form(&mut rt.stdin(), &mut bytes);
            let date = Date { year, month, day };
            of_form(rt, Asked { view, zone, date }, &bytes[..n]);
        }
    }
}
