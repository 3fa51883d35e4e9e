// Writes the data of a ride as JSON (own). What is written is by clause the form of the data, token by token.
ghost use Rattle.std.specs.Prelude.{◌≡◌, [], ◌∷◌, ◌++◌, IfOk, OnOk, map};
ghost use Rattle.std.specs.List.{flat_map};
ghost use Rattle.json.specs.Print.{print};
ghost use Rattle.rideview.specs.Form.{asked_tokens, bits_tokens, front_tokens, head_tokens, kind_tokens, lane_tokens, loss_head, loss_tokens, number_token, part_token, report_token, rest_tokens, ride_tokens, shown_tokens, text_token, told_tokens, value_tokens, word_token};
ghost use Rattle.rideview.specs.Safe.{safe};

use crate::bits::Bits;
use crate::lane_data::{LaneData, Shown, Value};
use crate::loss_data::LossData;
use crate::ride::Ride;
use crate::safe::add_safe;
use crate::texts::{is_asked, is_clause};
use json::Writer;
use std::alloc::{AllocError, Global};

/// A part of the text.
#[derive(Clone, Copy)]
pub enum Part<'a> {
    Open,
    Close,
    OpenList,
    CloseList,
    Key(&'a str),
    Text(&'a str),
    Number(u32),
    Flag(bool),
}

fn put_part(writer: &mut Writer, part: Part<'_>) -> Result<(), AllocError>
    ensures tokens { OnOk result (writer.new.tokens ≡ writer.old.tokens ++ part_token part.entry ∷ []) }
    ensures before { OnOk result (writer.new.before ≡ writer.old.before) }
{
    match part {
        Part::Open => writer.begin_object(),
        Part::Close => writer.end_object(),
        Part::OpenList => writer.begin_array(),
        Part::CloseList => writer.end_array(),
        Part::Key(name) => writer.key(name),
        Part::Text(text) => writer.string(text),
        Part::Number(number) => writer.u64(u64::from(number)),
        Part::Flag(holds) => writer.boolean(holds),
    }
}

fn put(writer: &mut Writer, parts: &[Part<'_>]) -> Result<(), AllocError>
    ensures tokens { OnOk result (writer.new.tokens ≡ writer.old.tokens ++ map part_token parts.now) }
    ensures before { OnOk result (writer.new.before ≡ writer.old.before) }
{
    for part in parts {
        put_part(writer, *part)?;
    }
    Ok(())
}

fn write_numbers(writer: &mut Writer, numbers: &[u32]) -> Result<(), AllocError>
    ensures tokens { OnOk result (writer.new.tokens ≡ writer.old.tokens ++ map number_token numbers.now) }
    ensures before { OnOk result (writer.new.before ≡ writer.old.before) }
{
    for number in numbers {
        writer.u64(u64::from(*number))?;
    }
    Ok(())
}

// Of a source without a value the number is -1.
fn write_words(writer: &mut Writer, words: &[Option<u16>]) -> Result<(), AllocError>
    ensures tokens { OnOk result (writer.new.tokens ≡ writer.old.tokens ++ map word_token words.now) }
    ensures before { OnOk result (writer.new.before ≡ writer.old.before) }
{
    for word in words {
        match *word {
            Some(word) => writer.u64(u64::from(word))?,
            None => writer.i64(-1)?,
        }
    }
    Ok(())
}

fn write_texts(writer: &mut Writer, texts: &[&'static str]) -> Result<(), AllocError>
    ensures tokens { OnOk result (writer.new.tokens ≡ writer.old.tokens ++ map text_token texts.now) }
    ensures before { OnOk result (writer.new.before ≡ writer.old.before) }
{
    for text in texts {
        writer.string(text)?;
    }
    Ok(())
}

fn write_lines(writer: &mut Writer, lines: &[String]) -> Result<(), AllocError>
    ensures tokens { OnOk result (writer.new.tokens ≡ writer.old.tokens ++ map report_token lines.now) }
    ensures before { OnOk result (writer.new.before ≡ writer.old.before) }
{
    for line in lines {
        writer.string(line.as_str())?;
    }
    Ok(())
}

fn write_value(writer: &mut Writer, value: &Value) -> Result<(), AllocError>
    ensures tokens { OnOk result (writer.new.tokens ≡ writer.old.tokens ++ value_tokens value.now) }
    ensures before { OnOk result (writer.new.before ≡ writer.old.before) }
{
    match &value.text {
        Some(text) => put(
            writer,
            &[
                Part::Open,
                Part::Key("state"),
                Part::Text(value.state),
                Part::Key("text"),
                Part::Text(text.as_str()),
                Part::Close,
            ],
        ),
        None => put(
            writer,
            &[
                Part::Open,
                Part::Key("state"),
                Part::Text(value.state),
                Part::Close,
            ],
        ),
    }
}

fn write_values(writer: &mut Writer, values: &[Value]) -> Result<(), AllocError>
    ensures tokens { OnOk result (writer.new.tokens ≡ writer.old.tokens ++ flat_map value_tokens values.now) }
    ensures before { OnOk result (writer.new.before ≡ writer.old.before) }
{
    for value in values {
        write_value(writer, value)?;
    }
    Ok(())
}

// Name and group.
fn write_head(writer: &mut Writer, lane: &LaneData) -> Result<(), AllocError>
    ensures tokens { OnOk result (writer.new.tokens ≡ writer.old.tokens ++ head_tokens lane.now) }
    ensures before { OnOk result (writer.new.before ≡ writer.old.before) }
{
    put(
        writer,
        &[
            Part::Open,
            Part::Key("name"),
            Part::Text(lane.name),
            Part::Key("group"),
            Part::Text(lane.group),
        ],
    )?;
    if lane.as_power {
        put(writer, &[Part::Key("as"), Part::Text("power")])?;
    }
    Ok(())
}

fn write_bits(writer: &mut Writer, bits: &Bits) -> Result<(), AllocError>
    ensures tokens { OnOk result (writer.new.tokens ≡ writer.old.tokens ++ bits_tokens bits.now) }
    ensures before { OnOk result (writer.new.before ≡ writer.old.before) }
{
    put(writer, &[Part::Key("bits"), Part::OpenList])?;
    write_texts(writer, bits.words)?;
    put(
        writer,
        &[
            Part::CloseList,
            Part::Key("elsewhere"),
            Part::Number(bits.elsewhere),
        ],
    )?;
    Ok(())
}

// The values, or the bits of a source.
fn write_kind(writer: &mut Writer, shown: &Shown) -> Result<(), AllocError>
    ensures tokens { OnOk result (writer.new.tokens ≡ writer.old.tokens ++ kind_tokens shown.now) }
    ensures before { OnOk result (writer.new.before ≡ writer.old.before) }
{
    match shown {
        Shown::Values(values, _) => {
            put(writer, &[Part::Key("values"), Part::OpenList])?;
            write_values(writer, values)?;
            put(writer, &[Part::CloseList])
        }
        Shown::Words(bits, _) => write_bits(writer, bits),
    }
}

// What each bar shows.
fn write_shown(writer: &mut Writer, shown: &Shown) -> Result<(), AllocError>
    ensures tokens { OnOk result (writer.new.tokens ≡ writer.old.tokens ++ shown_tokens shown.now) }
    ensures before { OnOk result (writer.new.before ≡ writer.old.before) }
{
    match shown {
        Shown::Values(_, places) => write_numbers(writer, places),
        Shown::Words(_, words) => write_words(writer, words),
    }
}

fn write_lane(writer: &mut Writer, lane: &LaneData) -> Result<(), AllocError>
    ensures tokens { OnOk result (writer.new.tokens ≡ writer.old.tokens ++ lane_tokens lane.now) }
    ensures before { OnOk result (writer.new.before ≡ writer.old.before) }
{
    write_head(writer, lane)?;
    write_kind(writer, &lane.shown)?;
    put(writer, &[Part::Key("ticks"), Part::OpenList])?;
    write_numbers(writer, &lane.ticks)?;
    put(
        writer,
        &[Part::CloseList, Part::Key("bars"), Part::OpenList],
    )?;
    write_shown(writer, &lane.shown)?;
    put(writer, &[Part::CloseList, Part::Close])
}

fn write_lanes(writer: &mut Writer, lanes: &[LaneData]) -> Result<(), AllocError>
    ensures tokens { OnOk result (writer.new.tokens ≡ writer.old.tokens ++ flat_map lane_tokens lanes.now) }
    ensures before { OnOk result (writer.new.before ≡ writer.old.before) }
{
    for lane in lanes {
        write_lane(writer, lane)?;
    }
    Ok(())
}

// Its tick, its line, its cause, and the list of its lanes, which is left open.
fn write_loss_head(writer: &mut Writer, it: &LossData) -> Result<(), AllocError>
    ensures tokens { OnOk result (writer.new.tokens ≡ writer.old.tokens ++ loss_head it.now) }
    ensures before { OnOk result (writer.new.before ≡ writer.old.before) }
{
    put(
        writer,
        &[
            Part::Open,
            Part::Key("tick"),
            Part::Number(it.loss.tick),
            Part::Key("line"),
            Part::Text(it.line.as_str()),
            Part::Key("cause"),
            Part::Number(it.loss.cause),
            Part::Key("lanes"),
            Part::OpenList,
        ],
    )
}

// A clause that fails is told by the lane of the clauses too.
fn write_told(writer: &mut Writer, code: u8) -> Result<(), AllocError>
    ensures tokens { OnOk result (writer.new.tokens ≡ writer.old.tokens ++ told_tokens code) }
    ensures before { OnOk result (writer.new.before ≡ writer.old.before) }
{
    if is_clause(code) {
        put(writer, &[Part::Text("clause")])?;
    }
    Ok(())
}

fn write_asked(writer: &mut Writer, code: u8) -> Result<(), AllocError>
    ensures tokens { OnOk result (writer.new.tokens ≡ writer.old.tokens ++ asked_tokens code) }
    ensures before { OnOk result (writer.new.before ≡ writer.old.before) }
{
    put(
        writer,
        &[Part::Key("asked"), Part::Flag(is_asked(code)), Part::Close],
    )
}

fn write_loss(writer: &mut Writer, it: &LossData) -> Result<(), AllocError>
    ensures tokens { OnOk result (writer.new.tokens ≡ writer.old.tokens ++ loss_tokens it.now) }
    ensures before { OnOk result (writer.new.before ≡ writer.old.before) }
{
    write_loss_head(writer, it)?;
    write_texts(writer, &it.names)?;
    put(
        writer,
        &[Part::CloseList, Part::Key("told"), Part::OpenList],
    )?;
    write_told(writer, it.loss.reason)?;
    put(writer, &[Part::CloseList])?;
    write_asked(writer, it.loss.reason)
}

fn write_losses(writer: &mut Writer, losses: &[LossData]) -> Result<(), AllocError>
    ensures tokens { OnOk result (writer.new.tokens ≡ writer.old.tokens ++ flat_map loss_tokens losses.now) }
    ensures before { OnOk result (writer.new.before ≡ writer.old.before) }
{
    for loss in losses {
        write_loss(writer, loss)?;
    }
    Ok(())
}

// Title, ticks and lanes.
fn write_front(writer: &mut Writer, title: &str, ride: &Ride) -> Result<(), AllocError>
    ensures tokens { OnOk result (writer.new.tokens ≡ writer.old.tokens ++ front_tokens title.now ride.now) }
    ensures before { OnOk result (writer.new.before ≡ writer.old.before) }
{
    put(
        writer,
        &[
            Part::Open,
            Part::Key("form"),
            Part::Number(1),
            Part::Key("title"),
            Part::Text(title),
            Part::Key("ticks"),
            Part::Number(ride.ticks),
            Part::Key("lanes"),
            Part::OpenList,
        ],
    )?;
    write_lanes(writer, &ride.lanes)?;
    Ok(())
}

// Losses and report.
fn write_rest(writer: &mut Writer, ride: &Ride, report: &[String]) -> Result<(), AllocError>
    ensures tokens { OnOk result (writer.new.tokens ≡ writer.old.tokens ++ rest_tokens ride.now report.now) }
    ensures before { OnOk result (writer.new.before ≡ writer.old.before) }
{
    put(
        writer,
        &[Part::CloseList, Part::Key("losses"), Part::OpenList],
    )?;
    write_losses(writer, &ride.losses)?;
    put(
        writer,
        &[Part::CloseList, Part::Key("report"), Part::OpenList],
    )?;
    write_lines(writer, report)?;
    put(writer, &[Part::CloseList, Part::Close])
}

#[tactic(auto, unfolding(crate::specs::Form::ride_tokens))]
fn write_ride(
    writer: &mut Writer,
    title: &str,
    ride: &Ride,
    report: &[String],
) -> Result<(), AllocError>
    ensures tokens { OnOk result (writer.new.tokens ≡ writer.old.tokens ++ ride_tokens title.now ride.now report.now) }
    ensures before { OnOk result (writer.new.before ≡ writer.old.before) }
{
    write_front(writer, title, ride)?;
    write_rest(writer, ride, report)
}

/// The data of a ride as JSON, with no sign `<` in it.
pub fn json_of(
    alloc: Global,
    title: &str,
    ride: &Ride,
    report: &[String],
) -> Result<Vec<u8>, AllocError>
    ensures { IfOk result (λ text. text.items ≡ safe (print (ride_tokens title.now ride.now report.now))) }
{
    let mut writer = Writer::new(Vec::new(alloc));
    write_ride(&mut writer, title, ride, report)?;
    let mut text = Vec::new(alloc);
    add_safe(&mut text, &writer.into_inner())?;
    Ok(text)
}
