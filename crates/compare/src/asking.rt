// Puts what is asked of a floor to a planner over any source, and compares its answers with the plain ones.
use crate::courses::walk;
use crate::exam::{Ask, Mark, Moment, Paper, Reply, View};
use crate::grid::Grid;
use crate::prices::{Price, Priced};
use crate::steps::{NO_STEPS, both};
use crate::tally::Tally;
use crate::words::Task;
use floor::{Cell, Counts};
use lengths::{Drawn, Refusal, Room};
use listing::millimetres::millimetres;
use lists::Lists;
use planner::Planner;
use rate::Rate;
use source::{JumpSource, labels};
use std::alloc::{AllocError, Global};

// What the lists hold where nothing was written.
const NO_CELL: Cell = Cell { row: 999, col: 999 };

const NO_COUNTS: Counts = Counts {
    straight: 999_999,
    diagonal: 999_999,
};

// Sides of cells for which lengths are told in millimetres.
const SIDES: [u32; 3] = [1, 1_000, 1_999];

// All lists that a planner is lent.
#[derive(Drop)]
pub struct Desk {
    pub lists: Lists,
    pub corners: Vec<Cell>,
    pub legs: Vec<Counts>,
}

impl Desk {
    pub fn new(heap: Global, room: Room, corners: usize, legs: usize) -> Result<Desk, AllocError> {
        Ok(Desk {
            lists: Lists::new(heap, room)?,
            corners: vec![in heap; NO_CELL; corners]?,
            legs: vec![in heap; NO_COUNTS; legs]?,
        })
    }

    // With lists just as long as they have to be.
    fn full(heap: Global, cells: usize) -> Result<Desk, AllocError> {
        let places = cells.saturating_mul(8);
        let room = Room {
            entries: places,
            waiting: places,
        };
        Desk::new(heap, room, cells, 64)
    }

    fn finished(&self) -> usize {
        self.lists
            .entries()
            .iter()
            .filter(|entry| entry.is_finished())
            .count()
    }
}

// Whether the cheapest counts cost as much as these.
fn costs(reply: Reply, price: Price, counts: Counts) -> bool {
    reply.is_ok_and(|cheapest| price.cost(cheapest) == price.cost(counts))
}

// Kept: refusals are compared by their numbers, here and in the tables of edges, since it is the numbers that a user is told: a rule of the project.
fn refuses(reply: Reply, number: u8) -> bool {
    reply.err() == Some(number)
}

fn put_marks<S: JumpSource, R: Rate>(
    planner: &mut Planner<S, R>,
    marks: &[Mark],
    tally: &mut Tally,
) {
    for mark in marks {
        let answer = if mark.open {
            planner.open(mark.cell)
        } else {
            planner.close(mark.cell)
        };
        tally
            .marks
            .note(answer.map_err(Refusal::number) == mark.changes.ok_or(1));
    }
}

// A label holds the steps; one of a dead jump has 32,768 added.
// Kept: a jump is a pair of steps and a live flag, the form in which every source answers it; and the label is worked out here, beside the
// sources' own, since it is a rule of the project that what checks the answers shares no formula with them.
fn label_of(jump: (u16, bool)) -> u16 {
    if jump.1 {
        jump.0
    } else {
        jump.0.wrapping_add(32_768)
    }
}

fn put_view<S: JumpSource>(source: &S, view: &View, tally: &mut Tally) {
    tally.marks.note(source.is_open(view.cell) == view.open);
    let all = labels(source, view.cell);
    for (heading, jump) in (0u8..9).zip(view.jumps) {
        tally.jumps.note(source.jump(view.cell, heading) == jump);
    }
    for (label, jump) in all.iter().zip(view.jumps) {
        tally.labels.note(*label == label_of(jump));
    }
}

// Whether so many millimetres are as long as a route over cells of this side.
fn covers(side: u32, counts: Counts, figure: u64) -> bool {
    let straight = u128::from(side) * u128::from(counts.straight);
    let diagonal = u128::from(side) * u128::from(counts.diagonal);
    let least = diagonal.saturating_mul(diagonal).saturating_mul(2);
    u128::from(figure)
        .checked_sub(straight)
        .is_some_and(|rest| rest.saturating_mul(rest) >= least)
}

// Whether no fewer millimetres would cover it.
fn is_least(side: u32, counts: Counts, figure: u64) -> bool {
    let shorter = figure.checked_sub(1);
    covers(side, counts, figure) && !shorter.is_some_and(|less| covers(side, counts, less))
}

fn put_counts(counts: Counts, tally: &mut Tally) {
    for side in SIDES {
        let figure = millimetres(side, counts);
        tally
            .figures
            .note(figure.is_ok_and(|figure| is_least(side, counts, figure)));
    }
}

fn put_length<S: JumpSource, R: Rate>(
    planner: &Planner<S, R>,
    ask: &Ask,
    price: Price,
    desk: &mut Desk,
    tally: &mut Tally,
) {
    let answer = planner.length(ask.start, ask.target, &mut desk.lists.work());
    match answer {
        Ok(measured) => {
            tally.lengths.note(costs(ask.reply, price, measured.counts));
            tally.finished.note(desk.finished() == measured.finished);
            put_counts(measured.counts, tally);
        }
        Err(refusal) => tally.lengths.note(refuses(ask.reply, refusal.number())),
    }
}

fn untouched(cells: &[Cell]) -> bool {
    cells.iter().all(|cell| *cell == NO_CELL)
}

// Whether the corners written are those of a legal route with the counts answered, and nothing past them was written.
fn drawn_well(grid: &Grid, ask: &Ask, drawn: Drawn, corners: &[Cell]) -> bool {
    let Some((route, rest)) = corners.split_at_checked(drawn.corners) else {
        return false;
    };
    route.first().copied() == Some(ask.start)
        && route.last().copied() == Some(ask.target)
        && walk(grid, route) == Some(drawn.measured.counts)
        && untouched(rest)
}

fn put_route<S: JumpSource, R: Rate>(
    planner: &Planner<S, R>,
    grid: &Grid,
    ask: &Ask,
    price: Price,
    desk: &mut Desk,
) -> bool {
    desk.corners.as_mut_slice().fill(NO_CELL);
    let answer = planner.route(
        ask.start,
        ask.target,
        &mut desk.lists.work(),
        desk.corners.as_mut_slice(),
    );
    let corners = desk.corners.as_slice();
    match answer {
        Ok(drawn) => {
            costs(ask.reply, price, drawn.measured.counts) && drawn_well(grid, ask, drawn, corners)
        }
        Err(refusal) => refuses(ask.reply, refusal.number()) && untouched(corners),
    }
}

// The leg that is refused first, counted from 1, and the number of its refusal.
fn first_refused(legs: &[Ask]) -> Option<(usize, u8)> {
    (1usize..)
        .zip(legs)
        .find_map(|(leg, ask)| ask.reply.err().map(|number| (leg, number)))
}

// The sum of the legs measured, if each costs what it should; what lies past them was not written.
fn summed(price: Price, legs: &[Ask], written: &[Counts], measured: usize) -> Option<Counts> {
    let (told, rest) = written.split_at_checked(measured)?;
    let (asked, _) = legs.split_at_checked(measured)?;
    let right = asked
        .iter()
        .zip(told)
        .all(|(ask, counts)| costs(ask.reply, price, *counts));
    if right && rest.iter().all(|counts| *counts == NO_COUNTS) {
        told.iter()
            .try_fold(NO_STEPS, |sum, counts| both(sum, *counts))
    } else {
        None
    }
}

fn put_loop<S: JumpSource, R: Rate>(
    planner: &Planner<S, R>,
    paper: &Paper,
    desk: &mut Desk,
) -> bool {
    desk.legs.as_mut_slice().fill(NO_COUNTS);
    let answer = planner.tour(
        paper.stations.as_slice(),
        &mut desk.lists.work(),
        desk.legs.as_mut_slice(),
    );
    let legs = paper.legs.as_slice();
    let written = desk.legs.as_slice();
    match answer {
        Ok(total) => {
            first_refused(legs).is_none()
                && summed(paper.price, legs, written, legs.len()) == Some(total)
        }
        Err(refusal) => {
            let measured = refusal.leg().saturating_sub(1);
            first_refused(legs) == Some((refusal.leg(), refusal.number()))
                && summed(paper.price, legs, written, measured).is_some()
        }
    }
}

fn put_paper<S: JumpSource, R: Rate>(
    planner: &Planner<S, R>,
    grid: &Grid,
    paper: &Paper,
    desk: &mut Desk,
    tally: &mut Tally,
) {
    for ask in paper.asks.iter() {
        put_length(planner, ask, paper.price, desk, tally);
        let agrees = put_route(planner, grid, ask, paper.price, desk);
        tally.routes.note(agrees);
    }
    let agrees = put_loop(planner, paper, desk);
    tally.loops.note(agrees);
}

// Takes a fresh planner through the moments of a floor.
#[derive(Drop)]
pub struct Asking<'a, R: Priced> {
    pub heap: Global,
    pub rate: R,
    pub moments: &'a [Moment],
    pub tally: &'a mut Tally,
}

impl<R: Priced> Task for Asking<'_, R> {
    fn put<S: JumpSource + Drop>(self, source: S) -> Result<(), AllocError> {
        let Asking {
            heap,
            rate,
            moments,
            tally,
        } = self;
        let mut planner = Planner::new(source, rate);
        for moment in moments {
            let mut desk = Desk::full(heap, moment.grid.size.cells())?;
            put_marks(&mut planner, moment.marks.as_slice(), tally);
            for view in moment.views.iter() {
                put_view(&planner.source, view, tally);
            }
            let paper = moment.paper(R::PRICE);
            put_paper(&planner, &moment.grid, paper, &mut desk, tally);
        }
        Ok(())
    }
}
