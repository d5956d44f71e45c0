mod endings;
mod ledgers;
mod readers;
mod records;
