ghost use Rattle.std.specs.Prelude.{◌≡◌, ◌++◌, option_map, option_to_list};
ghost use Rattle.audit_recording.specs.Rows.Told.{between_told, both_row, ends_told, is_told_at_ends, plain_row, row_of, rows_of, rows_told};

use crate::rows::said::Said;
use crate::rows::telling::depends_on_place;

/// Where a transfer was recorded.
#[derive(Clone, Copy, Debug, PartialEq, Eq)]
pub enum Place {
    /// At its client.
    Client,
    /// At its server.
    Server,
    /// At both ends, which are told alike.
    Both,
    /// At a point between its ends; also where it is not known where, since what is lawful at an end is lawful there.
    Between,
}

/// A point at which a transfer is judged (RFC 1350, section 2).
#[derive(Clone, Copy, Debug, PartialEq, Eq)]
pub enum Point {
    /// Its client.
    Client,
    /// Its server.
    Server,
    /// A point that all datagrams pass which one end sends to the other.
    Between,
}

/// One verdict that is told of a transfer.
#[derive(Clone, Copy, Debug, PartialEq, Eq)]
pub struct Row {
    /// Where it was recorded.
    pub place: Place,
    /// The point at which it was judged so.
    pub point: Point,
}

/// What is told of a transfer, in this order.
#[derive(Clone, Copy, Debug)]
pub struct Rows {
    /// The client's verdict, or that of both ends.
    pub client: Option<Row>,
    /// The server's.
    pub server: Option<Row>,
    /// The one between them.
    pub between: Option<Row>,
}

/// Which verdicts are told: that of each point at which the transfer was judged, in a row of its own; of both ends in one, if
/// both were judged and are told alike. What is said between the ends has none where both ends were judged, unless a refusal of
/// theirs depends on the place.
pub fn rows_told(
    client: Option<&Said>,
    server: Option<&Said>,
    between: Option<&Said>,
    are_alike: bool,
) -> Rows
    ensures { rows_of result ≡ rows_told (option_map (λ s. s.now) client.entry) (option_map (λ s. s.now) server.entry) (option_map (λ s. s.now) between.entry) are_alike }
{
    let between = between_told(client, server, between);
    if client.is_some() && server.is_some() && are_alike {
        return Rows {
            client: Some(Row::of_both()),
            server: None,
            between,
        };
    }
    Rows {
        client: told_at(Point::Client, client),
        server: told_at(Point::Server, server),
        between,
    }
}

/// The row of what is said between the ends, unless it is told at the ends.
fn between_told(client: Option<&Said>, server: Option<&Said>, between: Option<&Said>) -> Option<Row>
    ensures { option_to_list result ≡ between_told (option_map (λ s. s.now) client.entry) (option_map (λ s. s.now) server.entry) (option_map (λ s. s.now) between.entry) }
{
    if is_told_at_ends(client, server, between) {
        return None;
    }
    told_at(Point::Between, between)
}

/// Whether what is said between the ends is told at the ends: both were judged, and no refusal of theirs depends on the place.
fn is_told_at_ends(client: Option<&Said>, server: Option<&Said>, between: Option<&Said>) -> bool
    ensures { result ≡ is_told_at_ends (option_map (λ s. s.now) client.entry) (option_map (λ s. s.now) server.entry) (option_map (λ s. s.now) between.entry) }
{
    let depends = depends_on_place(client, between) || depends_on_place(server, between);
    client.is_some() && server.is_some() && !depends
}

/// The row of a point, if the transfer was judged there.
fn told_at(point: Point, said: Option<&Said>) -> Option<Row>
    ensures { option_to_list result ≡ row_of point (option_map (λ s. s.now) said.entry) }
{
    match said {
        Some(_) => Some(Row::at(point)),
        None => None,
    }
}

impl Row {
    /// The verdict at a point, where the transfer was recorded.
    fn at(point: Point) -> Self
        ensures { result ≡ plain_row point }
    {
        let place = match point {
            Point::Client => Place::Client,
            Point::Server => Place::Server,
            Point::Between => Place::Between,
        };
        Row { place, point }
    }

    /// The verdict of both ends.
    fn of_both() -> Self
        ensures { result ≡ both_row }
    {
        Row {
            place: Place::Both,
            point: Point::Client,
        }
    }
}
