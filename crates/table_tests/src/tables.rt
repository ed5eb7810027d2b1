mod builder;
mod cycle;
mod designs;
mod limits;
mod shown;
mod sound;
