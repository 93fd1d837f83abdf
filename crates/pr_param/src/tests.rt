mod listed;
mod lists;
mod replies;
