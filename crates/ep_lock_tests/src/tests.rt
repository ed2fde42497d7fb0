mod locks;
mod shelf;
mod ties;
