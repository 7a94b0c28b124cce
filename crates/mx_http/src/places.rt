// The places of connections: what each one does, which gives way to a new one, and how many there are of each kind.
pub mod activities;
pub mod connection_figures;
pub mod giving_way;
pub mod open_connections;
